//! The codes of findings.

ghost use Rattle.std.specs.Prelude.{◌≡◌};
ghost use Rattle.std.specs.Str.{IsUtf8};
ghost use Rattle.ags_rows.specs.Codes.{code_text};

/// The rule that a finding is of. Findings of one line are sorted in the order of these variants.
#[rattlefmt::skip]
#[derive(Clone, Copy, Debug, PartialEq, Eq, PartialOrd, Ord)]
pub enum Code {
    Rule1, Rule2, Rule2a, Rule2b, Rule3, Rule4, Rule5, Rule6,
    Rule7, Rule8, Rule9, Rule10a, Rule10b, Rule10c, Rule11a, Rule11b,
    Rule11c, Rule13, Rule14, Rule15, Rule16, Rule17, Rule18, Rule19,
    Rule19a, Rule19b, Rule20, P1, P2,
}

impl Code {
    /// The rule's number, as it is printed: ASCII text.
    pub fn text(&self) -> &'static [u8]
        ensures text { result.now ≡ code_text self.now }
        ensures utf8 { IsUtf8 result.now }
    {
        match self {
            Code::Rule1 => b"1",
            Code::Rule2 => b"2",
            Code::Rule2a => b"2a",
            Code::Rule2b => b"2b",
            Code::Rule3 => b"3",
            Code::Rule4 => b"4",
            Code::Rule5 => b"5",
            Code::Rule6 => b"6",
            Code::Rule7 => b"7",
            Code::Rule8 => b"8",
            Code::Rule9 => b"9",
            Code::Rule10a => b"10a",
            Code::Rule10b => b"10b",
            Code::Rule10c => b"10c",
            Code::Rule11a => b"11a",
            Code::Rule11b => b"11b",
            Code::Rule11c => b"11c",
            Code::Rule13 => b"13",
            Code::Rule14 => b"14",
            Code::Rule15 => b"15",
            Code::Rule16 => b"16",
            Code::Rule17 => b"17",
            Code::Rule18 => b"18",
            Code::Rule19 => b"19",
            Code::Rule19a => b"19a",
            Code::Rule19b => b"19b",
            Code::Rule20 => b"20",
            Code::P1 => b"P1",
            Code::P2 => b"P2",
        }
    }
}
