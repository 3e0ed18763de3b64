//! The keys of a configuration, their ranges and defaults, and documents that are none.

use crate::rows::holds;
use sim_inputs::{ConfigRefused, Settings, read_config};
use smt_model::Role;
use std::alloc::Global;
use std::process::Abort;
use std::test::Fail;

static EVERY_ROLE: [Role; 6] = [
    Role::Fetch,
    Role::Front,
    Role::Retire,
    Role::Alu,
    Role::Mul,
    Role::Mem,
];

/// The numbers of settings; RAM is in bytes.
#[derive(Clone, Copy, PartialEq, Drop)]
struct Sizes {
    harts: u8,
    extra: u16,
    queue: u8,
    ram: u32,
    limit: u32,
    turns: u64,
}

const DEFAULTS: Sizes = Sizes {
    harts: 1,
    extra: 64,
    queue: 16,
    ram: 65_536,
    limit: 1_000_000,
    turns: 1_000_000_000,
};

fn sizes_of(settings: &Settings) -> Sizes {
    let config = &settings.config;
    Sizes {
        harts: config.harts,
        extra: config.extra,
        queue: config.queue,
        ram: settings.ram.bytes(),
        limit: settings.limit,
        turns: settings.turns,
    }
}

fn has(settings: &Settings, sizes: Sizes, roles: &[Role]) -> bool {
    sizes_of(settings) == sizes && settings.config.roles.as_slice() == roles
}

/// Whether a configuration is read as these sizes and roles.
fn says(text: &[u8], sizes: Sizes, roles: &[Role], alloc: Global) -> bool {
    match read_config(text, alloc) {
        Ok(settings) => has(&settings, sizes, roles),
        Err(_) => false,
    }
}

pub(super) fn is_default(text: &[u8], alloc: Global) -> bool {
    says(text, DEFAULTS, &EVERY_ROLE, alloc)
}

#[test]
fn a_key_that_is_absent_has_its_default(rt: HostRuntime) {
    let sizes = Sizes {
        harts: 2,
        ..DEFAULTS
    };
    assert!(rt; says(b"harts = 2", sizes, &EVERY_ROLE, rt.alloc()));
}

#[test]
fn settings_can_be_had_without_a_configuration(rt: HostRuntime) {
    assert!(rt; has(&Settings::default(), DEFAULTS, &EVERY_ROLE));
}

#[test]
fn each_key_is_read(rt: HostRuntime) {
    let text =
        b"# sizes\nharts = 16\nextra = 528\nqueue = 64\nram = 8192\nlimit = 1000\nturns = 5\nactors = [\"mem\", \"alu\", \"alu\"]\n";
    let sizes = Sizes {
        harts: 16,
        extra: 528,
        queue: 64,
        ram: 8192,
        limit: 1000,
        turns: 5,
    };
    let roles = [Role::Mem, Role::Alu, Role::Alu];
    assert!(rt; says(text, sizes, &roles, rt.alloc()));
}

fn refusal(text: &[u8], alloc: Global) -> Option<ConfigRefused> {
    read_config(text, alloc).err()
}

const REFUSED: Option<ConfigRefused> = Some(ConfigRefused::Refused);

/// Asserts that so many texts are refused so, or accepted. A bar stands between two.
fn each_is(rt: &impl Abort, why: Option<ConfigRefused>, texts: &str, count: u32, alloc: Global) {
    let mut found = 0u32;
    for text in texts.split('|') {
        holds(rt, text, refusal(text.as_bytes(), alloc) == why);
        found = found.wrapping_add(1);
    }
    assert!(rt; found == count);
}

#[test]
fn a_configuration_that_is_cut_is_refused(rt: HostRuntime) {
    let cut = "h|ha|har|hart|harts|harts |harts =|harts = ";
    each_is(&rt, REFUSED, cut, 8, rt.alloc());
    each_is(&rt, None, "|harts = 2", 2, rt.alloc());
}

#[test]
fn a_number_may_be_the_first_or_the_last_of_its_range(rt: HostRuntime) {
    let texts =
        "harts = 1|harts = 16|extra = 1|extra = 528|queue = 4|queue = 64|ram = 4096|ram = 16777216|\
limit = 0|limit = 16777216|turns = 0|turns = 1000000000000000000|actors = [\"alu\"]";
    each_is(&rt, None, texts, 13, rt.alloc());
    let turns = Sizes {
        turns: 1_000_000_000_000_000_000,
        ..DEFAULTS
    };
    assert!(rt;
        says(
            b"turns = 1000000000000000000",
            turns,
            &EVERY_ROLE,
            rt.alloc()
        )
    );
    assert!(rt; says(b"actors = [\"alu\"]", DEFAULTS, &[Role::Alu], rt.alloc()));
}

#[test]
fn a_number_out_of_its_range_is_refused(rt: HostRuntime) {
    let texts =
        "harts = 0|harts = 17|extra = 0|extra = 529|queue = 3|queue = 65|ram = 0|ram = 4095|\
ram = 4097|ram = 16781312|limit = 16777217|limit = -1|turns = 1000000000000000001|turns = -1";
    each_is(&rt, REFUSED, texts, 14, rt.alloc());
}

/// A configuration of `MOST_ACTORS` actors, and what follows the last of them.
const MOST_ACTORS_HEAD: &str = "actors = [\
\"mul\",\"mul\",\"mul\",\"mul\",\"mul\",\"mul\",\"mul\",\"mul\",\
\"mul\",\"mul\",\"mul\",\"mul\",\"mul\",\"mul\",\"mul\",\"mul\",\
\"mul\",\"mul\",\"mul\",\"mul\",\"mul\",\"mul\",\"mul\",\"mul\",\
\"mul\",\"mul\",\"mul\",\"mul\",\"mul\",\"mul\",\"mul\",\"mul\"";

#[test]
fn actors_are_1_to_32_known_roles(rt: HostRuntime) -> Result<(), Fail> {
    let most = format!(in rt.alloc(); "{MOST_ACTORS_HEAD}]")?;
    assert!(rt; says(most.as_bytes(), DEFAULTS, &[Role::Mul; 32], rt.alloc()));
    let more = format!(in rt.alloc(); "{MOST_ACTORS_HEAD}, \"mul\"]")?;
    each_is(&rt, REFUSED, more.as_str(), 1, rt.alloc());
    let texts =
        "actors = []|actors = [\"alu\", \"add\"]|actors = [\"Alu\"]|actors = [\"\"]|actors = [3]|\
actors = [[\"alu\"]]|actors = 6|actors = \"alu\"";
    each_is(&rt, REFUSED, texts, 8, rt.alloc());
    Ok(())
}

#[test]
fn another_document_is_refused(rt: HostRuntime) {
    let texts =
        "cores = 2|Harts = 2|harts = 2\nlimits = 3|harts = \"2\"|harts = 2.0|harts = true|harts = [2]|\
harts = 1979-05-27|[harts]|harts.count = 2|harts = 2\nharts = 2|harts = 99999999999999999999|harts 2";
    each_is(&rt, REFUSED, texts, 13, rt.alloc());
    assert!(rt; refusal(b"harts = 2 # \xff", rt.alloc()) == REFUSED);
}
