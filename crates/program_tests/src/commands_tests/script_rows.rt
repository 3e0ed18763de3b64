//! Scripts, with texts worked by hand from the rules of a core and the forms of the lines.

use super::{ENDING, SINGLE, TO_THE_END, TWO};

/// Eight harts and sixteen actors.
const SIXTEEN: &[u8] = b"harts = 8
queue = 64
actors = [\"alu\", \"alu\", \"alu\", \"alu\", \"alu\", \"alu\", \"alu\", \"alu\", \"alu\", \
\"alu\", \"alu\", \"alu\", \"alu\", \"alu\", \"alu\", \"alu\"]
";

/// Four times `addi x0,x0,0`.
const NOPS: &[u32] = &[0x00000013; 4];

/// A script that is run with the words of a program.
#[derive(Clone, Copy, Drop)]
pub(super) struct ScriptRun {
    pub(super) config: &'static [u8],
    pub(super) words: &'static [u32],
    pub(super) script: &'static str,
    /// Whether the records are printed before the report.
    pub(super) records: bool,
    /// Whether the tables are printed after the asks.
    pub(super) show: bool,
}

macro_rules! run {
    ($config:expr, $words:expr, $script:expr) => {
        ScriptRun {
            config: $config,
            words: $words,
            script: $script,
            records: false,
            show: false,
        }
    };
}

/// A script, what it is about, what it prints, and its exit status. A star stands for any text.
#[derive(Clone, Copy, Drop)]
pub(super) struct Row {
    pub(super) name: &'static str,
    pub(super) run: ScriptRun,
    pub(super) prints: &'static str,
    pub(super) status: u8,
}

macro_rules! row {
    ($name:expr, $run:expr, $prints:expr, $status:expr) => {
        Row {
            name: $name,
            run: $run,
            prints: $prints,
            status: $status,
        }
    };
}

/// In the last one the sixteen actors make 0 to 15 events each: 55 fetches, 36 decodes and 29
/// renames.
pub(super) static RUNS: [Row; 12] = [
    row!(
        "the first program ends with five",
        run!(SINGLE, ENDING, TO_THE_END),
        "done F 0 0 0 80000000 00500513 80000004
done F 0 0 1 80000004 05d00893 80000008
done F 0 0 2 80000008 00000073 8000000c
done D 0 0
done D 0 1
done D 0 2
done R 0 0 31
done R 0 1 32
done R 0 2 -
done I 0 0
done C 0 0 00000005 p80000004 - - -
done I 0 1
done C 0 1 0000005d p80000008 - - -
done I 0 2
done C 0 2 - e00000005 - - -
done T 0 0 00000005 p80000004 - - -
done T 0 1 0000005d p80000008 - - -
done T 0 2 - e00000005 - - -
events 18
retired 3
lent 0
hart 0 ended 5
output -
",
        1
    ),
    row!(
        "a late job of an ended hart is dropped",
        run!(SINGLE, ENDING, "F0*4 D0.0*4 R0.0*4 U0*3 I0 T0.0*3 C0"),
        "*
done F 0 0 3 8000000c - 80000010
done D 0 0
*
done X 0 3
events 23
retired 3
lent 0
hart 0 ended 5
output -
",
        1
    ),
    row!(
        // addi x10,x0,0x41; addi x17,x0,1; ecall; addi x17,x0,7; ecall
        "calls put bytes out, and strange ones stop",
        run!(
            SINGLE,
            &[0x04100513, 0x00100893, 0x00000073, 0x00700893, 0x00000073],
            "F0*5 D0.0*5 R0.0*5 U0*5 T0.0*5"
        ),
        "*
done C 0 2 - p8000000c - - 41
*events 30
retired 5
lent 0
hart 0 stopped 8
output 41
",
        1
    ),
    row!(
        "an empty hand is answered with none",
        run!(SINGLE, ENDING, "I0 C0 F0"),
        "idle
none
done F 0 0 0*",
        3
    ),
    row!(
        "records stand before the report",
        ScriptRun {
            config: SINGLE,
            words: ENDING,
            script: TO_THE_END,
            records: true,
            show: false,
        },
        "*
0 80000000 00500513 00000005 p80000004 - - -
0 80000004 05d00893 0000005d p80000008 - - -
0 80000008 00000073 - e00000005 - - -
events 18
retired 3
lent 0
hart 0 ended 5
output -
",
        1
    ),
    row!(
        // jal x5,2
        "a jump to an odd half stops its hart",
        run!(b"", &[0x002002EF], "F0 D1.0 R1.0 U3 T2.0"),
        "done F 0 0 0 80000000 002002ef 80000002
done D 1 0
done R 1 0 31
done I 3 0
done C 3 0 - s0 - - -
done T 2 0 - s0 - - -
events 6
retired 1
lent 0
hart 0 stopped 0
output -
",
        1
    ),
    row!(
        // addi x5,x0,3; beq x0,x0,0x8000000c; mul x7,x5,x5; addi x8,x0,9; ebreak
        "a wrong prediction gives its registers back",
        ScriptRun {
            config: TWO,
            words: &[0x00300293, 0x00000463, 0x025283B3, 0x00900413, 0x00100073],
            script: "F0*6 D1.0*3 R1.0*3 U3 I4 U3 D1.1 R1.1 U3 C4",
            records: false,
            show: true,
        },
        "*
done C 3 2 - p8000000c - - -
done D 1 1
done R 1 1 63
*
done X 4 4
hart 0 going pc 8000000c *
reg 63 00000003
events 22
retired 0
lent 0
hart 0 going
hart 1 going
output -
",
        3
    ),
    row!(
        // addi x0,x0,0; addi x5,x0,1; addi x7,x0,2; ebreak, with one register more than the harts'
        // own
        "a rename waits for a free register",
        run!(
            b"harts = 2\nram = 8192\nlimit = 1000\nextra = 1\n",
            &[0x00000013, 0x00100293, 0x00200393, 0x00100073],
            "F0*5 D1.0*3 D1.1*2 R1.0*3 R1.1*2 U3*3 T2.0*2 R1.0"
        ),
        "*
done R 1 0 -
done R 1 2 62
idle
done R 1 1 -
idle
done I 3 0
*
done R 1 4 4
events 22
*",
        3
    ),
    row!(
        "harts are fetched in turn until their latches are full",
        run!(b"harts = 2\nram = 8192\n", NOPS, "F0*17"),
        "done F 0 0 0 80000000 00000013 80000004
done F 0 1 1 80000000 00000013 80000004
done F 0 0 2 80000004 00000013 80000008
done F 0 1 3 80000004 00000013 80000008
done F 0 0 4 *
done F 0 1 15 8000001c - 80000020
idle
events 16
retired 0
lent 0
hart 0 going
hart 1 going
output -
",
        3
    ),
    row!(
        "the least count is fetched, and ties go round",
        run!(
            b"harts = 3\nram = 8192\nlimit = 1000\n",
            NOPS,
            "F0*4 D1.1 R1.1 I3 F0*2"
        ),
        "done F 0 0 0 80000000 00000013 80000004
done F 0 1 1 80000000 00000013 80000004
done F 0 2 2 80000000 00000013 80000004
done F 0 0 3 80000004 00000013 80000008
done D 1 1
done R 1 1 -
done I 3 1
done F 0 1 4 80000004 00000013 80000008
done F 0 2 5 80000004 00000013 80000008
events 9
retired 0
lent 1
hart 0 going
hart 1 going
hart 2 going
output -
",
        3
    ),
    row!(
        "a history without room is full at once",
        run!(b"limit = 0", ENDING, "F0"),
        "full
events 0
retired 0
lent 0
hart 0 going
output -
",
        3
    ),
    row!(
        "each of sixteen actors has a number of its own",
        run!(
            SIXTEEN,
            NOPS,
            "U0 F1 F2*2 F3*3 F4*4 F5*5 F6*6 F7*7 F8*8 F9*9 F10*10 \
D11.0*7 D11.1*4 D12.1*3 D12.2*7 D12.3*2 D13.3*5 D13.4*7 D13.5 \
R14.0*7 R14.1*7 R15.2*7 R15.3*7 R15.4"
        ),
        "idle
done F 1 0 0 *
events 120
retired 0
lent 0
*",
        3
    ),
];

/// Under a predictor that guesses address 0 alone.
pub(super) static ASTRAY: Row = row!(
    "each prediction is wrong",
    run!(
        SINGLE,
        ENDING,
        "F0*2 D0.0*2 R0.0*2 U0 F0 D0.0 R0.0 U0 F0 D0.0 R0.0 U0 T0.0*3"
    ),
    "done F 0 0 0 80000000 00500513 00000000
done F 0 0 1 00000000 - 00000004
*
done R 0 2 32
*
events 21
retired 3
lent 0
hart 0 ended 5
output -
",
    1
);
