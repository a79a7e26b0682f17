//! The words that no name of the headers may be.

ghost use Rattle.std.specs.Prelude.{◌≡◌};
ghost use Rattle.lx_csr.specs.CWords.{is_c_word};

use lx_tables::{LONGEST, Words};

static C: [[u8; LONGEST]; 44] = [
    *b"CONFIG_CSR_DATA_WIDTH",
    *b"CSR_BASE             ",
    *b"_Bool                ",
    *b"_Complex             ",
    *b"_Imaginary           ",
    *b"__GENERATED_CSR_H    ",
    *b"__GENERATED_MEM_H    ",
    *b"__GENERATED_SOC_H    ",
    *b"auto                 ",
    *b"break                ",
    *b"case                 ",
    *b"char                 ",
    *b"const                ",
    *b"continue             ",
    *b"csr_read_simple      ",
    *b"csr_write_simple     ",
    *b"default              ",
    *b"do                   ",
    *b"double               ",
    *b"else                 ",
    *b"enum                 ",
    *b"extern               ",
    *b"float                ",
    *b"for                  ",
    *b"goto                 ",
    *b"if                   ",
    *b"inline               ",
    *b"int                  ",
    *b"long                 ",
    *b"register             ",
    *b"restrict             ",
    *b"return               ",
    *b"short                ",
    *b"signed               ",
    *b"sizeof               ",
    *b"static               ",
    *b"struct               ",
    *b"switch               ",
    *b"typedef              ",
    *b"union                ",
    *b"unsigned             ",
    *b"void                 ",
    *b"volatile             ",
    *b"while                ",
];

/// Whether the word is a keyword of C (ISO/IEC 9899:1999, 6.4.1), or a name that LiteX's headers define themselves.
pub fn is_c_word(word: &[u8]) -> bool
    ensures { result ≡ is_c_word word.now }
{
    Words::new(&C).has(word)
}
