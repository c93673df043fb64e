//! The bodies that are sent: the files of the worked examples, each with its changes.

use super::{Body, Edit, File, Length};
use ags_rows::LIMIT;
use samples_of_tests::{FILE_A, FILE_B, FILE_C};
use std::alloc::{AllocError, Global};

/// The first file.
pub const A: Body = Body {
    front: b"",
    file: File::A,
    edits: &[],
    spaces: 0,
};

/// It with another borehole.
pub const A_OTHER: Body = Body {
    front: b"",
    file: File::A,
    edits: &[Edit {
        first: 30,
        last: 30,
        lines: "\"DATA\",\"BH2\"\r\n",
    }],
    spaces: 0,
};

/// It without its row of types.
pub const A_UNENDED: Body = Body {
    front: b"",
    file: File::A,
    edits: &[Edit {
        first: 29,
        last: 29,
        lines: "",
    }],
    spaces: 0,
};

/// It before spaces, 4,194,305 bytes.
pub const A_LONG: Body = Body {
    front: b"",
    file: File::A,
    edits: &[],
    spaces: 4_193_762,
};

/// It before spaces, as long as a body may be.
pub const A_LONGEST: Body = Body {
    front: b"",
    file: File::A,
    edits: &[],
    spaces: LIMIT - 543,
};

/// One space more.
pub const A_TOO_LONG: Body = Body {
    front: b"",
    file: File::A,
    edits: &[],
    spaces: LIMIT - 542,
};

/// It after a byte order mark, with spaces and quotes in line 5, and without its last line end.
pub const A_SPACED: Body = Body {
    front: b"\xEF\xBB\xBF",
    file: File::A,
    edits: &[
        Edit {
            first: 5,
            last: 5,
            lines: "\"DATA\" , \"P7\",\"North \"\"bank\"\"\"\r\n",
        },
        Edit {
            first: 30,
            last: 30,
            lines: "\"DATA\",\"BH1\"",
        },
    ],
    spaces: 0,
};

/// As an extract spells that.
pub const A_PLAIN: Body = Body {
    front: b"",
    file: File::A,
    edits: &[Edit {
        first: 5,
        last: 5,
        lines: "\"DATA\",\"P7\",\"North \"\"bank\"\"\"\r\n",
    }],
    spaces: 0,
};

/// The second file.
pub const B: Body = Body {
    front: b"",
    file: File::B,
    edits: &[],
    spaces: 0,
};

/// What Echo may see of it, 956 bytes: all but the second borehole with its sample and its test.
pub const B_SHOWN: Body = Body {
    front: b"",
    file: File::B,
    edits: &[
        Edit {
            first: 33,
            last: 33,
            lines: "",
        },
        Edit {
            first: 40,
            last: 40,
            lines: "",
        },
        Edit {
            first: 47,
            last: 47,
            lines: "",
        },
    ],
    spaces: 0,
};

/// The first borehole of it with the project, 626 bytes.
pub const B_BOREHOLE: Body = Body {
    front: b"",
    file: File::B,
    edits: &[Edit {
        first: 33,
        last: 47,
        lines: "",
    }],
    spaces: 0,
};

/// It with another result in a hidden row: `99.9` for `18.4` in line 47.
pub const B_WETTER: Body = Body {
    front: b"",
    file: File::B,
    edits: &[Edit {
        first: 47,
        last: 47,
        lines: "\"DATA\",\"BH2\",\"2.00\",\"S2\",\"2.05\",\"99.9\"\r\n",
    }],
    spaces: 0,
};

/// It with one hidden row more.
pub const B_TESTED: Body = Body {
    front: b"",
    file: File::B,
    edits: &[Edit {
        first: 48,
        last: 47,
        lines: "\"DATA\",\"BH2\",\"2.00\",\"S2\",\"2.10\",\"20\"\r\n",
    }],
    spaces: 0,
};

/// A dictionary of its own, after the second file: PROJ has a heading of record links.
const LINKING: Edit = Edit {
    first: 48,
    last: 47,
    lines: "\r\n\
\"GROUP\",\"DICT\"\r\n\
\"HEADING\",\"DICT_TYPE\",\"DICT_GRP\",\"DICT_HDNG\",\"DICT_STAT\",\"DICT_PGRP\"\r\n\
\"UNIT\",\"\",\"\",\"\",\"\",\"\"\r\n\
\"TYPE\",\"X\",\"X\",\"X\",\"X\",\"X\"\r\n\
\"DATA\",\"HEADING\",\"PROJ\",\"PROJ_LINK\",\"OTHER\",\"\"\r\n",
};

/// The second file, where the row of PROJ is linked to the second borehole, which Echo may not see.
pub const B_LINKED_HIDDEN: Body = Body {
    front: b"",
    file: File::B,
    edits: &[
        Edit {
            first: 2,
            last: 5,
            lines: "\"HEADING\",\"PROJ_ID\",\"PROJ_NAME\",\"PROJ_LINK\"\r\n\
\"UNIT\",\"\",\"\",\"\"\r\n\
\"TYPE\",\"ID\",\"X\",\"RL\"\r\n\
\"DATA\",\"P7\",\"North bank\",\"LOCA|BH2\"\r\n",
        },
        LINKING,
    ],
    spaces: 0,
};

/// It linked to the first borehole, which Echo may see.
pub const B_LINKED: Body = Body {
    front: b"",
    file: File::B,
    edits: &[
        Edit {
            first: 2,
            last: 5,
            lines: "\"HEADING\",\"PROJ_ID\",\"PROJ_NAME\",\"PROJ_LINK\"\r\n\
\"UNIT\",\"\",\"\",\"\"\r\n\
\"TYPE\",\"ID\",\"X\",\"RL\"\r\n\
\"DATA\",\"P7\",\"North bank\",\"LOCA|BH1\"\r\n",
        },
        LINKING,
    ],
    spaces: 0,
};

/// It linked to itself.
pub const B_LINKED_TO_ITSELF: Body = Body {
    front: b"",
    file: File::B,
    edits: &[
        Edit {
            first: 2,
            last: 5,
            lines: "\"HEADING\",\"PROJ_ID\",\"PROJ_NAME\",\"PROJ_LINK\"\r\n\
\"UNIT\",\"\",\"\",\"\"\r\n\
\"TYPE\",\"ID\",\"X\",\"RL\"\r\n\
\"DATA\",\"P7\",\"North bank\",\"PROJ|P7\"\r\n",
        },
        LINKING,
    ],
    spaces: 0,
};

/// The second file, where the row of PROJ has a file set of one file.
pub const B_FILED: Body = Body {
    front: b"",
    file: File::B,
    edits: &[
        Edit {
            first: 2,
            last: 5,
            lines: "\"HEADING\",\"PROJ_ID\",\"PROJ_NAME\",\"FILE_FSET\"\r\n\
\"UNIT\",\"\",\"\",\"\"\r\n\
\"TYPE\",\"ID\",\"X\",\"X\"\r\n\
\"DATA\",\"P7\",\"North bank\",\"FS1\"\r\n",
        },
        Edit {
            first: 48,
            last: 47,
            lines: "\r\n\
\"GROUP\",\"FILE\"\r\n\
\"HEADING\",\"FILE_FSET\",\"FILE_NAME\"\r\n\
\"UNIT\",\"\",\"\"\r\n\
\"TYPE\",\"X\",\"X\"\r\n\
\"DATA\",\"FS1\",\"plan.pdf\"\r\n",
        },
    ],
    spaces: 0,
};

/// The first file with PROJ as its last group.
pub const A_PROJECT_LAST: Body = Body {
    front: b"",
    file: File::A,
    edits: &[
        Edit {
            first: 1,
            last: 6,
            lines: "",
        },
        Edit {
            first: 31,
            last: 30,
            lines: "\r\n\
\"GROUP\",\"PROJ\"\r\n\
\"HEADING\",\"PROJ_ID\",\"PROJ_NAME\"\r\n\
\"UNIT\",\"\",\"\"\r\n\
\"TYPE\",\"ID\",\"X\"\r\n\
\"DATA\",\"P7\",\"North bank\"\r\n",
        },
    ],
    spaces: 0,
};

/// The third file, with a ring of record links.
pub const C: Body = Body {
    front: b"",
    file: File::C,
    edits: &[],
    spaces: 0,
};

/// What Echo may see of it: a hidden sample hides what is linked to it.
pub const C_SHOWN: Body = Body {
    front: b"",
    file: File::C,
    edits: &[
        Edit {
            first: 39,
            last: 39,
            lines: "",
        },
        Edit {
            first: 41,
            last: 41,
            lines: "",
        },
        Edit {
            first: 42,
            last: 42,
            lines: "",
        },
        Edit {
            first: 48,
            last: 48,
            lines: "",
        },
    ],
    spaces: 0,
};

/// Bodies, each with the length that it should have.
pub static LENGTHS: [Length; 6] = [
    Length("the first file", A, 543),
    Length("before 4,193,762 spaces", A_LONG, 4_194_305),
    Length("as long as may be", A_LONGEST, LIMIT),
    Length("one space more", A_TOO_LONG, LIMIT + 1),
    Length("what is shown of the second file", B_SHOWN, 956),
    Length("its first borehole", B_BOREHOLE, 626),
];

/// The bytes of a file.
fn file_bytes(file: File) -> &'static [u8] {
    match file {
        File::A => FILE_A,
        File::B => FILE_B,
        File::C => FILE_C,
    }
}

/// Where this line of a file begins, counted from 1; the length of the file where it has no such line.
fn begin_of(file: &[u8], line: usize) -> usize {
    let mut left = line;
    for (place, byte) in file.iter().enumerate() {
        if left == 1 {
            return place;
        }
        if *byte == b'\n' {
            left = left.saturating_sub(1);
        }
    }
    file.len()
}

/// The lines of a file from the first and before the last.
fn lines_of(file: &[u8], first: usize, last: usize) -> &[u8] {
    match file.get(begin_of(file, first)..begin_of(file, last)) {
        Some(lines) => lines,
        None => b"",
    }
}

/// The bytes of a body.
pub fn bytes_of(alloc: Global, body: &Body) -> Result<Vec<u8>, AllocError> {
    let file = file_bytes(body.file);
    let mut text = Vec::from_slice(alloc, body.front)?;
    let mut line = 1usize;
    for edit in body.edits {
        text.extend_from_slice(lines_of(file, line, edit.first))?;
        text.extend_from_slice(edit.lines.as_bytes())?;
        line = edit.last.saturating_add(1);
    }
    text.extend_from_slice(lines_of(file, line, usize::MAX))?;
    text.resize(text.len().saturating_add(body.spaces), b' ')?;
    Ok(text)
}
