//! The forms of words.

/// The forms of words of the program, one a line.
pub const FORMS: &str = "record compile NET SRC
record tune NET SRC
record dual NET SRC PART
record check NET SRC IMG
record explain NET SRC
record extract NET
record run NET IMG MEM CYCLES
record go NET SRC MEM CYCLES
record make N
record asm NET TEXT
record dis NET IMG
record test NET
record --help
";
