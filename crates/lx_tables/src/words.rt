//! Words in sorted tables: Python's, and those that Verilog keeps for itself.

ghost use Rattle.std.specs.Prelude.{◌≡◌, map};
ghost use Rattle.std.specs.List.{list_any};
ghost use Rattle.std.specs.Str.{bytes_eq};
ghost use Rattle.std.specs.Ordering.{nat_cmp};
ghost use Rattle.std.specs.Cmp.Lexicographic.{slice_cmp};
ghost use Rattle.lx_tables.specs.WordTables.{word_of, IsTable};
ghost use Rattle.lx_tables.specs.PythonWords.{is_python_word};
ghost use Rattle.lx_tables.specs.VerilogWords.{is_verilog_word};

use std::cmp::Ordering;
use std::marker::Model;

/// The bytes of the longest word that a table may hold: `CONFIG_CSR_DATA_WIDTH`, a name of LiteX's headers.
pub const LONGEST: usize = 21;

/// A table of words, in the order of their bytes. A contract sees it as the list of its words.
#[derive(Drop)]
pub struct Words<const N: usize> {
    // Each word is padded with blanks.
    words: &'static [[u8; LONGEST]; N],
}

impl<const N: usize> Model for Words<N> {
    ghost use Rattle.std.specs.Prelude.{List, ℕ, map};
    ghost use Rattle.lx_tables.specs.WordTables.{word_of, IsTable};

    ghost Value = { List (List ℕ) };

    ghost view = { λ table. map word_of table.words.now };

    ghost invariant = { λ table. IsTable N table.words.now };
}

impl<const N: usize> Words<N> {
    /// The table of the words that these entries hold, each up to its first blank.
    pub fn new(words: &'static [[u8; LONGEST]; N]) -> Words<N>
        requires { IsTable N words.now }
        ensures { result ≡ map word_of words.now }
    {
        Words { words }
    }

    /// Whether the word is in the table.
    pub fn has(&self, word: &[u8]) -> bool
        ensures { result ≡ list_any (bytes_eq word.now) self.now }
    {
        let words = self.words;
        words[..]
            .binary_search_by(
                |entry: &[u8; LONGEST]| -> Ordering
                    ensures { result ≡ slice_cmp nat_cmp (word_of entry.now) word.entry.now }
                { word_in(entry).cmp(&word) },
            )
            .is_ok()
    }
}

// The word that an entry holds.
fn word_in(entry: &[u8; LONGEST]) -> &[u8]
    ensures { result.now ≡ word_of entry.now }
{
    for (i, b) in entry.iter().enumerate() {
        if *b == b' ' {
            return &entry[..i];
        }
    }
    entry.as_slice()
}

static PYTHON: [[u8; LONGEST]; 35] = [
    *b"False                ",
    *b"None                 ",
    *b"True                 ",
    *b"and                  ",
    *b"as                   ",
    *b"assert               ",
    *b"async                ",
    *b"await                ",
    *b"break                ",
    *b"class                ",
    *b"continue             ",
    *b"def                  ",
    *b"del                  ",
    *b"elif                 ",
    *b"else                 ",
    *b"except               ",
    *b"finally              ",
    *b"for                  ",
    *b"from                 ",
    *b"global               ",
    *b"if                   ",
    *b"import               ",
    *b"in                   ",
    *b"is                   ",
    *b"lambda               ",
    *b"nonlocal             ",
    *b"not                  ",
    *b"or                   ",
    *b"pass                 ",
    *b"raise                ",
    *b"return               ",
    *b"try                  ",
    *b"while                ",
    *b"with                 ",
    *b"yield                ",
];

static VERILOG: [[u8; LONGEST]; 124] = [
    *b"always               ",
    *b"and                  ",
    *b"assign               ",
    *b"automatic            ",
    *b"begin                ",
    *b"buf                  ",
    *b"bufif0               ",
    *b"bufif1               ",
    *b"case                 ",
    *b"casex                ",
    *b"casez                ",
    *b"cell                 ",
    *b"cmos                 ",
    *b"config               ",
    *b"deassign             ",
    *b"default              ",
    *b"defparam             ",
    *b"design               ",
    *b"disable              ",
    *b"edge                 ",
    *b"else                 ",
    *b"end                  ",
    *b"endcase              ",
    *b"endconfig            ",
    *b"endfunction          ",
    *b"endgenerate          ",
    *b"endmodule            ",
    *b"endprimitive         ",
    *b"endspecify           ",
    *b"endtable             ",
    *b"endtask              ",
    *b"event                ",
    *b"for                  ",
    *b"force                ",
    *b"forever              ",
    *b"fork                 ",
    *b"function             ",
    *b"generate             ",
    *b"genvar               ",
    *b"highz0               ",
    *b"highz1               ",
    *b"if                   ",
    *b"ifnone               ",
    *b"incdir               ",
    *b"include              ",
    *b"initial              ",
    *b"inout                ",
    *b"input                ",
    *b"instance             ",
    *b"integer              ",
    *b"join                 ",
    *b"large                ",
    *b"liblist              ",
    *b"library              ",
    *b"localparam           ",
    *b"macromodule          ",
    *b"medium               ",
    *b"module               ",
    *b"nand                 ",
    *b"negedge              ",
    *b"nmos                 ",
    *b"nor                  ",
    *b"noshowcancelled      ",
    *b"not                  ",
    *b"notif0               ",
    *b"notif1               ",
    *b"or                   ",
    *b"output               ",
    *b"parameter            ",
    *b"pmos                 ",
    *b"posedge              ",
    *b"primitive            ",
    *b"pull0                ",
    *b"pull1                ",
    *b"pulldown             ",
    *b"pullup               ",
    *b"pulsestyle_ondetect  ",
    *b"pulsestyle_onevent   ",
    *b"rcmos                ",
    *b"real                 ",
    *b"realtime             ",
    *b"reg                  ",
    *b"release              ",
    *b"repeat               ",
    *b"rnmos                ",
    *b"rpmos                ",
    *b"rtran                ",
    *b"rtranif0             ",
    *b"rtranif1             ",
    *b"scalared             ",
    *b"showcancelled        ",
    *b"signed               ",
    *b"small                ",
    *b"specify              ",
    *b"specparam            ",
    *b"strong0              ",
    *b"strong1              ",
    *b"supply0              ",
    *b"supply1              ",
    *b"table                ",
    *b"task                 ",
    *b"time                 ",
    *b"tran                 ",
    *b"tranif0              ",
    *b"tranif1              ",
    *b"tri                  ",
    *b"tri0                 ",
    *b"tri1                 ",
    *b"triand               ",
    *b"trior                ",
    *b"trireg               ",
    *b"unsigned             ",
    *b"use                  ",
    *b"uwire                ",
    *b"vectored             ",
    *b"wait                 ",
    *b"wand                 ",
    *b"weak0                ",
    *b"weak1                ",
    *b"while                ",
    *b"wire                 ",
    *b"wor                  ",
    *b"xnor                 ",
    *b"xor                  ",
];

/// Whether the word is one of Python's (The Python Language Reference, 2.3.1).
pub fn is_python_word(word: &[u8]) -> bool
    ensures { result ≡ is_python_word word.now }
{
    Words::new(&PYTHON).has(word)
}

/// Whether the word is a keyword of Verilog (IEEE 1364-2005, annex B).
pub fn is_verilog_word(word: &[u8]) -> bool
    ensures { result ≡ is_verilog_word word.now }
{
    Words::new(&VERILOG).has(word)
}
