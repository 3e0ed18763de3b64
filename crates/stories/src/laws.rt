ghost use Rattle.stories.specs.Laws.{TellsRecords};

/// What a story tells of a step is what the step's record says.
pub fn tells_records()
    ensures { TellsRecords }
{}
