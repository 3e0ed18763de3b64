//! What a litmus test has in place of words that stay out of it.

/// What to write in place of a word that no litmus test has, where that is known.
pub(crate) fn in_place_of(word: &str) -> Option<&'static str> {
    match of_name(word) {
        Some(other) => Some(other),
        None => of_kind(word),
    }
}

/// Of single instructions.
fn of_name(word: &str) -> Option<&'static str> {
    Some(match word {
        "ecall" | "ebreak" => "a hart ends behind its last instruction, without one",
        "fence.i" => "fence: a test writes no code",
        "auipc" => "a number by li, or an address by la",
        "jalr" | "jr" | "ret" | "call" | "tail" => "j and a label: a test has no addresses of code",
        "ld" | "lwu" => "lw: registers have 32 bits",
        "sd" => "sw: registers have 32 bits",
        "addiw"
        | "slliw"
        | "srliw"
        | "sraiw"
        | "addw"
        | "subw"
        | "sllw"
        | "srlw"
        | "sraw"
        | "mulw"
        | "divw"
        | "divuw"
        | "remw"
        | "remuw" => { "the same without w: registers have 32 bits" }
        "sext.w" => "mv: registers have 32 bits",
        "int64_t" | "uint64_t" | "long" => "int: numbers have 32 bits",
        "float" | "double" => "int: there is no floating point",
        _ => return None,
    })
}

/// Of kinds of instructions.
fn of_kind(word: &str) -> Option<&'static str> {
    if word.ends_with(".rl.aq") {
        return Some("the same with .aq.rl");
    }
    if is_atomic(word) && word.contains(".d") {
        return Some("the same with .w: words have 32 bits");
    }
    if is_floating(word) {
        return Some("an instruction on registers x0 to x31: there is no floating point");
    }
    if is_of_vectors(word) {
        return Some("an instruction for each element: there are no vectors");
    }
    None
}

fn is_atomic(word: &str) -> bool {
    word.starts_with("lr.") || word.starts_with("sc.") || word.starts_with("amo")
}

fn is_floating(word: &str) -> bool {
    matches!(word, "flw" | "fsw" | "fld" | "fsd" | "frcsr" | "fscsr")
        || word.starts_with("f") && (word.contains(".s") || word.contains(".d"))
}

fn is_of_vectors(word: &str) -> bool {
    word.starts_with("vset") || word.starts_with("v") && word.contains(".v")
}
