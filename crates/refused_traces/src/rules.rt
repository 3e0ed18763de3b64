//! The rules of events and of lines, in words.

use events::EventKind;

/// What a rule asks of an event of this kind.
pub(crate) fn event_rule(kind: EventKind, rule: u8) -> &'static str {
    if rule == 1 {
        return "the actor is one of the core's";
    }
    match kind {
        EventKind::Fetch => fetch_rule(rule),
        EventKind::Decode => decode_rule(rule),
        EventKind::Rename => rename_rule(rule),
        EventKind::Issue => issue_rule(rule),
        EventKind::Complete => complete_rule(rule),
        EventKind::Drop => drop_rule(rule),
        EventKind::Retire => retire_rule(rule),
        EventKind::Refetch => refetch_rule(rule),
    }
}

fn fetch_rule(rule: u8) -> &'static str {
    match rule {
        2 => "the hart is the one that ICOUNT wants",
        3 => "the number is the next one",
        4 => "the pc is where this hart goes on",
        _ => "the word is what memory has at this pc now",
    }
}

fn decode_rule(rule: u8) -> &'static str {
    match rule {
        2 => "the instruction is fetched and not yet decoded",
        3 => "it is the oldest such instruction of its hart",
        _ => "its hart has fewer than 8 decoded instructions",
    }
}

fn rename_rule(rule: u8) -> &'static str {
    match rule {
        2 => "the instruction is decoded and not yet renamed",
        3 => "it is the oldest such instruction of its hart",
        4 => "the issue queue has room",
        5 => "its hart has fewer than 64 instructions in flight",
        6 => "a load's hart has fewer than 16 loads in flight",
        7 => "a store's hart has fewer than 16 stores in flight",
        8 => "a register stands there exactly where the instruction writes one",
        _ => "the register is one of the core's, and free",
    }
}

fn issue_rule(rule: u8) -> &'static str {
    match rule {
        2 => "the actor is a unit that has no job",
        3 => "the instruction is renamed and not yet issued",
        4 => "it is of the unit's kind",
        5 => "both of its operands have their values",
        _ => "no older instruction of this kind is ready",
    }
}

fn complete_rule(rule: u8) -> &'static str {
    match rule {
        2 => "the instruction is the actor's job",
        3 => "it isn't squashed",
        _ => "a completion has what the instruction computes of its operands",
    }
}

fn drop_rule(rule: u8) -> &'static str {
    match rule {
        2 => "the instruction is the actor's job",
        _ => "it is squashed",
    }
}

fn retire_rule(rule: u8) -> &'static str {
    match rule {
        2 => "the instruction is completed and not yet retired",
        3 => "it is the oldest of its hart in flight",
        4 => "a retirement has the effect that memory gives now",
        _ => "the word at its pc is still the one that was fetched",
    }
}

fn refetch_rule(rule: u8) -> &'static str {
    match rule {
        2 => "the instruction is completed and not yet retired",
        3 => "it is the oldest of its hart in flight",
        _ => "the word at its pc isn't the one any more that was fetched",
    }
}

/// What a rule asks of a line.
pub(crate) fn line_rule(rule: u8) -> &'static str {
    match rule {
        1 => "the first line names a version of the trace",
        2 => "a newline ends the line",
        3 => "the first field is one that the line may begin with",
        4 => "the line has as many fields as stand behind its first",
        5 => "each field is spelled as it has to be",
        _ => "each number is in its range",
    }
}
