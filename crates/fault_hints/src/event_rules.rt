//! The rules of events, as docs/TRACES.md says them.

/// What a rule asks of the event with this letter.
pub(crate) fn rule_of_event(letter: u8, rule: u8) -> &'static str {
    if rule == 1 {
        return "an actor that the trace's core has";
    }
    match letter {
        b'F' => rule_of_fetch(rule),
        b'D' => rule_of_decode(rule),
        b'R' => rule_of_rename(rule),
        b'I' => rule_of_issue(rule),
        b'C' => rule_of_completion(rule),
        b'X' => rule_of_drop(rule),
        b'T' => rule_of_retirement(rule),
        _ => rule_of_refetch(rule),
    }
}

fn rule_of_fetch(rule: u8) -> &'static str {
    match rule {
        2 => "the hart that is to be fetched: going, with room, of the fewest instructions",
        3 => "the next number",
        4 => "the pc where the hart goes on",
        _ => "the word that memory has at this pc",
    }
}

fn rule_of_decode(rule: u8) -> &'static str {
    match rule {
        2 => "an instruction that is fetched and not yet decoded",
        3 => "the oldest such instruction of its hart",
        _ => "fewer than eight decoded instructions of its hart",
    }
}

fn rule_of_rename(rule: u8) -> &'static str {
    match rule {
        2 => "an instruction that is decoded and not yet renamed",
        3 => "the oldest such instruction of its hart",
        4 => "room in the issue queue",
        5 => "fewer than 64 instructions of its hart in flight",
        6 => "fewer than 16 loads of its hart in flight",
        7 => "fewer than 16 stores of its hart in flight",
        8 => "a register where the instruction writes one, and else none",
        _ => "a register that the core has, and that is free",
    }
}

fn rule_of_issue(rule: u8) -> &'static str {
    match rule {
        2 => "an actor that is a unit and has no job",
        3 => "an instruction that is renamed and not yet issued",
        4 => "an instruction of the unit's kind",
        5 => "values of both its operands",
        _ => "no older one in the queue that is ready and of this kind",
    }
}

fn rule_of_completion(rule: u8) -> &'static str {
    match rule {
        2 => "the instruction that is this actor's job",
        3 => "an instruction that isn't squashed: X else",
        _ => "what the instruction computes of its operands",
    }
}

fn rule_of_drop(rule: u8) -> &'static str {
    match rule {
        2 => "the instruction that is this actor's job",
        _ => "an instruction that is squashed: C else",
    }
}

fn rule_of_retirement(rule: u8) -> &'static str {
    match rule {
        2 => "an instruction that is completed and not yet retired",
        3 => "the oldest of its hart in flight",
        4 => "what it does to memory as it is now",
        _ => "the word at its pc as it was fetched: G else",
    }
}

fn rule_of_refetch(rule: u8) -> &'static str {
    match rule {
        2 => "an instruction that is completed and not yet retired",
        3 => "the oldest of its hart in flight",
        _ => "another word at its pc than was fetched: T else",
    }
}
