//! What each byte of a value is between quotes.

ghost use Rattle.std.specs.Prelude.{◌≡◌, ◌==◌, ◌||◌, ◌↔◌, true, nat_lt};
ghost use Rattle.dump.specs.Values.{IsPlain, IsEscape};

use crate::Style;

/// How many bytes an escape has.
pub const ESCAPE_BYTES: usize = 8;

/// How many bytes a table of escapes has.
const TABLE_BYTES: usize = 2048;

/// What each byte is between quotes in a line of text: its text, dots, and how many bytes the text
/// has.
const TEXT: &[u8; TABLE_BYTES] = b"\
    \\x00...4\\x01...4\\x02...4\\x03...4\\x04...4\\x05...4\\x06...4\\x07...4\
    \\x08...4\\x09...4\\x0a...4\\x0b...4\\x0c...4\\x0d...4\\x0e...4\\x0f...4\
    \\x10...4\\x11...4\\x12...4\\x13...4\\x14...4\\x15...4\\x16...4\\x17...4\
    \\x18...4\\x19...4\\x1a...4\\x1b...4\\x1c...4\\x1d...4\\x1e...4\\x1f...4\
    \x20......1!......1\\\".....2#......1$......1%......1&......1'......1\
    (......1)......1*......1+......1,......1-......1.......1/......1\
    0......11......12......13......14......15......16......17......1\
    8......19......1:......1;......1<......1=......1>......1?......1\
    @......1A......1B......1C......1D......1E......1F......1G......1\
    H......1I......1J......1K......1L......1M......1N......1O......1\
    P......1Q......1R......1S......1T......1U......1V......1W......1\
    X......1Y......1Z......1[......1\\\\.....2]......1^......1_......1\
    `......1a......1b......1c......1d......1e......1f......1g......1\
    h......1i......1j......1k......1l......1m......1n......1o......1\
    p......1q......1r......1s......1t......1u......1v......1w......1\
    x......1y......1z......1{......1|......1}......1~......1\\x7f...4\
    \\x80...4\\x81...4\\x82...4\\x83...4\\x84...4\\x85...4\\x86...4\\x87...4\
    \\x88...4\\x89...4\\x8a...4\\x8b...4\\x8c...4\\x8d...4\\x8e...4\\x8f...4\
    \\x90...4\\x91...4\\x92...4\\x93...4\\x94...4\\x95...4\\x96...4\\x97...4\
    \\x98...4\\x99...4\\x9a...4\\x9b...4\\x9c...4\\x9d...4\\x9e...4\\x9f...4\
    \\xa0...4\\xa1...4\\xa2...4\\xa3...4\\xa4...4\\xa5...4\\xa6...4\\xa7...4\
    \\xa8...4\\xa9...4\\xaa...4\\xab...4\\xac...4\\xad...4\\xae...4\\xaf...4\
    \\xb0...4\\xb1...4\\xb2...4\\xb3...4\\xb4...4\\xb5...4\\xb6...4\\xb7...4\
    \\xb8...4\\xb9...4\\xba...4\\xbb...4\\xbc...4\\xbd...4\\xbe...4\\xbf...4\
    \\xc0...4\\xc1...4\\xc2...4\\xc3...4\\xc4...4\\xc5...4\\xc6...4\\xc7...4\
    \\xc8...4\\xc9...4\\xca...4\\xcb...4\\xcc...4\\xcd...4\\xce...4\\xcf...4\
    \\xd0...4\\xd1...4\\xd2...4\\xd3...4\\xd4...4\\xd5...4\\xd6...4\\xd7...4\
    \\xd8...4\\xd9...4\\xda...4\\xdb...4\\xdc...4\\xdd...4\\xde...4\\xdf...4\
    \\xe0...4\\xe1...4\\xe2...4\\xe3...4\\xe4...4\\xe5...4\\xe6...4\\xe7...4\
    \\xe8...4\\xe9...4\\xea...4\\xeb...4\\xec...4\\xed...4\\xee...4\\xef...4\
    \\xf0...4\\xf1...4\\xf2...4\\xf3...4\\xf4...4\\xf5...4\\xf6...4\\xf7...4\
    \\xf8...4\\xf9...4\\xfa...4\\xfb...4\\xfc...4\\xfd...4\\xfe...4\\xff...4\
    ";

/// The same in JSON.
const JSON: &[u8; TABLE_BYTES] = b"\
    \\u0000.6\\u0001.6\\u0002.6\\u0003.6\\u0004.6\\u0005.6\\u0006.6\\u0007.6\
    \\u0008.6\\u0009.6\\u000a.6\\u000b.6\\u000c.6\\u000d.6\\u000e.6\\u000f.6\
    \\u0010.6\\u0011.6\\u0012.6\\u0013.6\\u0014.6\\u0015.6\\u0016.6\\u0017.6\
    \\u0018.6\\u0019.6\\u001a.6\\u001b.6\\u001c.6\\u001d.6\\u001e.6\\u001f.6\
    \x20......1!......1\\\".....2#......1$......1%......1&......1'......1\
    (......1)......1*......1+......1,......1-......1.......1/......1\
    0......11......12......13......14......15......16......17......1\
    8......19......1:......1;......1<......1=......1>......1?......1\
    @......1A......1B......1C......1D......1E......1F......1G......1\
    H......1I......1J......1K......1L......1M......1N......1O......1\
    P......1Q......1R......1S......1T......1U......1V......1W......1\
    X......1Y......1Z......1[......1\\\\.....2]......1^......1_......1\
    `......1a......1b......1c......1d......1e......1f......1g......1\
    h......1i......1j......1k......1l......1m......1n......1o......1\
    p......1q......1r......1s......1t......1u......1v......1w......1\
    x......1y......1z......1{......1|......1}......1~......1\\u007f.6\
    \\u0080.6\\u0081.6\\u0082.6\\u0083.6\\u0084.6\\u0085.6\\u0086.6\\u0087.6\
    \\u0088.6\\u0089.6\\u008a.6\\u008b.6\\u008c.6\\u008d.6\\u008e.6\\u008f.6\
    \\u0090.6\\u0091.6\\u0092.6\\u0093.6\\u0094.6\\u0095.6\\u0096.6\\u0097.6\
    \\u0098.6\\u0099.6\\u009a.6\\u009b.6\\u009c.6\\u009d.6\\u009e.6\\u009f.6\
    \\u00a0.6\\u00a1.6\\u00a2.6\\u00a3.6\\u00a4.6\\u00a5.6\\u00a6.6\\u00a7.6\
    \\u00a8.6\\u00a9.6\\u00aa.6\\u00ab.6\\u00ac.6\\u00ad.6\\u00ae.6\\u00af.6\
    \\u00b0.6\\u00b1.6\\u00b2.6\\u00b3.6\\u00b4.6\\u00b5.6\\u00b6.6\\u00b7.6\
    \\u00b8.6\\u00b9.6\\u00ba.6\\u00bb.6\\u00bc.6\\u00bd.6\\u00be.6\\u00bf.6\
    \\u00c0.6\\u00c1.6\\u00c2.6\\u00c3.6\\u00c4.6\\u00c5.6\\u00c6.6\\u00c7.6\
    \\u00c8.6\\u00c9.6\\u00ca.6\\u00cb.6\\u00cc.6\\u00cd.6\\u00ce.6\\u00cf.6\
    \\u00d0.6\\u00d1.6\\u00d2.6\\u00d3.6\\u00d4.6\\u00d5.6\\u00d6.6\\u00d7.6\
    \\u00d8.6\\u00d9.6\\u00da.6\\u00db.6\\u00dc.6\\u00dd.6\\u00de.6\\u00df.6\
    \\u00e0.6\\u00e1.6\\u00e2.6\\u00e3.6\\u00e4.6\\u00e5.6\\u00e6.6\\u00e7.6\
    \\u00e8.6\\u00e9.6\\u00ea.6\\u00eb.6\\u00ec.6\\u00ed.6\\u00ee.6\\u00ef.6\
    \\u00f0.6\\u00f1.6\\u00f2.6\\u00f3.6\\u00f4.6\\u00f5.6\\u00f6.6\\u00f7.6\
    \\u00f8.6\\u00f9.6\\u00fa.6\\u00fb.6\\u00fc.6\\u00fd.6\\u00fe.6\\u00ff.6\
    ";

/// Whether a byte is written after a backslash between quotes.
#[inline(always)]
fn is_quote_or_backslash(byte: u8) -> bool
    ensures { result ≡ (byte == 34 || byte == 92) }
{
    byte == b'"' || byte == b'\\'
}

/// Whether a byte is not printable.
#[inline(always)]
fn is_unprintable(byte: u8) -> bool
    ensures { result ≡ (nat_lt byte 32 || nat_lt 126 byte) }
{
    byte < b' ' || b'~' < byte
}

/// Whether a byte is written as itself between quotes.
#[inline(always)]
pub fn is_plain(byte: u8) -> bool
    ensures { result ≡ true ↔ IsPlain byte }
{
    !is_quote_or_backslash(byte) && !is_unprintable(byte)
}

/// What a byte is between quotes: its text, followed by bytes that do not count; the last of these
/// is a digit for the length of the text. It is looked up, so that a byte that is escaped takes as
/// long as one that is not, and no branch waits for the byte.
#[inline(always)]
pub fn escape_of(style: Style, byte: u8) -> &'static [u8]
    ensures { IsEscape style byte result.now }
{
    let table: &[u8] = match style {
        Style::Text => TEXT,
        Style::Json => JSON,
    };
    let at = ESCAPE_BYTES * byte as usize;
    &table[at..at + ESCAPE_BYTES]
}
