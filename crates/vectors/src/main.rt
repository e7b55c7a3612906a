// Prints the rows of document 01's Known values, of document 02's examples, and the worked examples of the manuals: source 000
// (Wang 2200 A/B), and sources 001 (Wang 3300) and 004 (Wang 2200VS) where their rules are document 01's. Beside a row stands its page
// and, where the manual prints something else, the misprint or the difference of dialect. The up arrow of the manuals is the byte 5E, in
// rows ^.
// A value that a manual does not state is taken from what it prints. What a row has, the functions image_row and so on say.
#![tactic(auto)]

mod columns;
mod entries;
mod lines;
mod merges;
mod pages;
mod reserves;
mod scaled;
mod shown;
mod texts;

use crate::columns::{body_row, cut_row, image_row, size_row};
use crate::entries::{enter_row, whole_row};
use crate::lines::{fields_row, line_row};
use crate::merges::merge_row;
use crate::pages::page_row;
use crate::reserves::{NOT_NORMAL, list_row, place, reserve_row, write_row};
use crate::scaled::{minus, plus};
use crate::shown::ROOM;
use crate::texts::{long_row, read_row, text_row};
use std::io;
use std::io::Write;

// Known values, those marked * too, and one row each of refusals 2 and 1.
fn known_images(out: &mut impl Write) -> io::Result<()> {
    // 000, CONVERT, four examples. For the first and the fourth, 004 writes the images 000 and 0000.#####: in its dialect a 0 keeps a
    // leading zero and a # does not.
    image_row(out, b"\x01\x03###", plus(12195, 0, 3))?;
    image_row(out, b"\x01\x06+##.##", plus(2439, 0, 2))?;
    // Misprint of 000: ' 1.2E+01', 8 bytes under an image of 9. It is what -#.#^^^^ gives, which 004 has.
    image_row(out, b"\x01\x09-#.##^^^^", plus(12195, 0, 3))?;
    // Misprint of 000: '0012.195000', six digits under five #. 004 has '0012.19500'.
    image_row(out, b"\x01\x0a####.#####", plus(12195, 0, 3))?;
    image_row(out, b"\x01\x02+#", minus(3, 0, 1))?;
    image_row(out, b"\x01\x02##", plus(9999, 0, 2))?;
    image_row(out, b"\x01\x02##", plus(1, 2, 0))?;
    image_row(out, b"\x01\x08+#.#^^^^", plus(5, 0, 2))?;
    // Difference from 000, PACK: it would pack this, the exponent's sign taken to be plus.
    image_row(out, b"\x01\x07#.#^^^^", plus(5, 0, 2))?;
    image_row(out, b"\x01\x02##", minus(12, 0, 0))?;
    image_row(out, b"\x01\x03.##", plus(5, 0, 1))?;
    image_row(out, b"\x01\x03.##", plus(1, 0, 0))?;
    image_row(out, b"\x01\x06##^^^^", plus(1, 0, 99))?;
    image_row(out, b"\x01\x0e##############", plus(1, 0, 0))?;
    image_row(out, b"\x01\x02#.", plus(1, 0, 0))
}

// The manuals' other examples of a number under an image.
fn manual_images(out: &mut impl Write) -> io::Result<()> {
    // 000, error 56: 1234 exceeds ##; its correction.
    image_row(out, b"\x01\x02##", plus(1234, 0, 0))?;
    image_row(out, b"\x01\x04####", plus(1234, 0, 0))?;
    // 004, CONVERT.
    image_row(out, b"\x01\x08-#.#^^^^", plus(12195, 0, 3))?;
    // 004, CONVERT. Difference of dialect: it gives '  10', what document 01 prints under this image and does not convert to.
    image_row(out, b"\x01\x04####", plus(10, 0, 0))?;
    // 004, UNPACK.
    image_row(out, b"\x01\x04####", plus(24, 0, 0))
}

// Packed sizes. Difference of dialect: 004 leaves the last half of an odd column as it was; in document 01 it becomes zero.
fn sizes(out: &mut impl Write) -> io::Result<()> {
    // 000 and 004, PACK. In the text of 000 the first image is lost.
    size_row(out, b"\x01\x04####")?;
    size_row(out, b"\x01\x03###")?;
    size_row(out, b"\x01\x07+##.###")?;
    // Misprint of 000: 3 bytes, for 1 + 4 + 2 halves. 004 has +#.##^^^^, of 3 bytes.
    size_row(out, b"\x01\x0a+#.###^^^^")?;
    size_row(out, b"\x01\x09+#.##^^^^")?;
    // 000, PACK and UNPACK: into STR(A$, 4, 2), so 2 bytes.
    size_row(out, b"\x01\x05+#.##")
}

// Bodies read.
fn bodies(out: &mut impl Write) -> io::Result<()> {
    // A known value, marked *.
    body_row(out, b"\x01\x02+#", b"\x10")?;
    // 004, UNPACK.
    body_row(out, b"\x01\x04####", b"\x00\x24")?;
    // 004, UNPACK: the whole of its variable, with a blank behind the body. Difference of dialect: it reads the first bytes and
    // lets others follow.
    body_row(out, b"\x01\x04####", b"\x00\x24\x20")
}

// Known values, the example of document 01's Alpha text, and 000's pages CONVERT and NUM.
fn known_texts(out: &mut impl Write) -> io::Result<()> {
    // 000, NUM; 004 has the second too.
    text_row(out, b"+24.37#JK")?;
    text_row(out, b"98.7+53.6")?;
    // Document 01.
    text_row(out, b"12E99")?;
    // 000 and 004, CONVERT.
    text_row(out, b"1234")?;
    // 000 and 004, NUM, as a variable of 16 bytes holds them; only the second has length 16 there.
    text_row(out, b"123A5           ")?;
    text_row(out, b"12345           ")
}

// The manuals' examples of numeric constants, whose form NUM and CONVERT go by.
fn constants(out: &mut impl Write) -> io::Result<()> {
    // 000, numeric constants.
    text_row(out, b"4")?;
    text_row(out, b"-10")?;
    text_row(out, b"1432443")?;
    text_row(out, b"-.7865")?;
    text_row(out, b"24.4563")?;
    text_row(out, b"4.5E7")?;
    // 000, not valid.
    text_row(out, b"8.7E5.8")?;
    // In the text of 000 the minus is lost; 004 has it.
    text_row(out, b"-103.2E99")?;
    // Mistake of 000: it says that 8.7E-100 is less than E-100. Document 01 refuses it as its e is -100.
    text_row(out, b".87E-99")?;
    // 000, error 20: 14 digits; its correction.
    text_row(out, b"12345678.234567")?;
    text_row(out, b"12345678.23456")
}

// 004's examples of constants and of NUM that 000 does not have.
fn later_constants(out: &mut impl Write) -> io::Result<()> {
    text_row(out, b"-3E2")?;
    text_row(out, b"2.6E-27")?;
    text_row(out, b"4.5E+07")?;
    // Difference of dialect: 004 takes blanks anywhere.
    text_row(out, b"4.5 E-07")?;
    // NUM gives 4, and 16 in a variable of 16 bytes. Difference of dialect: 004's numbers end near 7.2E75, so it can't convert these.
    text_row(out, b"1E88")?;
    text_row(out, b"1E88            ")?;
    // NUM gives 0 for blanks.
    text_row(out, b"                ")
}

// Document 02, (i): texts with a remark behind the number, and texts without a number.
fn remarks(out: &mut impl Write) -> io::Result<()> {
    read_row(out, b"0012.5 torn")?;
    read_row(out, b"12E99 torn")?;
    read_row(out, b"12E99")?;
    read_row(out, b"torn")?;
    read_row(out, b"")?;
    read_row(out, b"   ")?;
    read_row(out, b"1 2")?;
    read_row(out, b"-")?;
    read_row(out, b"12345678901234")?;
    long_row(out, b' ')
}

// Document 02, (v): blanks behind the sign, and in other places inside.
fn spaced(out: &mut impl Write) -> io::Result<()> {
    read_row(out, b"- 12.5")?;
    read_row(out, b"- .5")?;
    read_row(out, b"+   7 ")?;
    read_row(out, b" -  3E2")?;
    read_row(out, b"- 0")?;
    read_row(out, b"- 12.5 torn")?;
    read_row(out, b"- 12345678901234")?;
    read_row(out, b"- 12E99")?;
    read_row(out, b"- 12E99 torn")?;
    // No digit or point behind the blanks.
    read_row(out, b"- ")?;
    read_row(out, b"- -1")?;
    read_row(out, b"- .")?;
    // Blanks behind E and its sign, about the point, and between two numbers.
    read_row(out, b"1E- 5")?;
    read_row(out, b"1E 5")?;
    read_row(out, b"1. 5")?;
    read_row(out, b"1 .5")?;
    read_row(out, b". 5")?;
    read_row(out, b"12 - 15")?;
    long_row(out, b'-')
}

// Document 02, (ii): what truncation cuts off.
fn cut_off(out: &mut impl Write) -> io::Result<()> {
    // All digits dropped, none, and some.
    cut_row(out, b"\x01\x02##", plus(1, 0, 5))?;
    cut_row(out, b"\x01\x07###.###", plus(12195, 0, 3))?;
    cut_row(out, b"\x01\x03###", plus(12195, 0, 3))?;
    // Exponential with 1 and with 13 digits.
    cut_row(out, b"\x01\x05#^^^^", plus(12195, 0, 3))?;
    cut_row(out, b"\x01\x11#############^^^^", plus(12195, 9, 0))?;
    // e near -99 and 99.
    cut_row(out, b"\x01\x02##", plus(1, 0, 99))?;
    cut_row(out, b"\x01\x06+#^^^^", plus(12195, 0, 103))?;
    cut_row(out, b"\x01\x05#^^^^", plus(99999, 95, 0))?;
    // Cut to zero; the sign plays no part.
    cut_row(out, b"\x01\x02+#", minus(3, 0, 1))?;
    cut_row(out, b"\x01\x01#", minus(3, 0, 1))?;
    // The number zero.
    cut_row(out, b"\x01\x02##", plus(0, 0, 0))?;
    cut_row(out, b"\x01\x08+#.#^^^^", plus(0, 0, 0))?;
    // Refused: the number exceeds, x is negative under an unsigned image, x is outside its limits.
    cut_row(out, b"\x01\x02##", plus(1, 2, 0))?;
    cut_row(out, b"\x01\x07#.#^^^^", plus(5, 0, 2))?;
    cut_row(out, b"\x01\x06##^^^^", plus(1, 0, 99))
}

// Document 02, (iii): positions found in a file.
fn found(out: &mut impl Write) -> io::Result<()> {
    // Equal first columns; positions before, at, between and behind them, given with more digits than the column has.
    page_row(
        out,
        b"\x01\x02##\x05\x12\x12\x99",
        b"-3 0 5 5.001 12 12.5 99 99.1 1E99",
    )?;
    page_row(out, b"\x01\x02##\x05\x12\x12\x99", b"1E-99 12")?;
    page_row(
        out,
        b"\x01\x04##.#\x01\x20\x12\x50",
        b"1.199 1.2 1.25 12.5 13",
    )?;
    // No positions, no records.
    page_row(out, b"\x01\x02##\x05\x12\x12\x99", b"")?;
    page_row(out, b"\x01\x02##", b"1 2")?;
    page_row(out, b"\x01\x02##", b"")?;
    // Refused: a bad half behind the last position, in the second column of the second record; records that fall behind it.
    page_row(out, b"\x02\x01#\x01#\x10\x10\x20\x2a", b"0")?;
    page_row(out, b"\x01\x02##\x05\x12\x11", b"1")?;
    page_row(out, b"\x01\x02##\x05\x12\x11", b"")?;
    // Positions that fall, a first column of another kind, and which comes first.
    page_row(out, b"\x01\x02##\x05\x12", b"12 11.9")?;
    page_row(out, b"\x01\x02##\x12\x05", b"12 11.9")?;
    page_row(out, b"\x01\x02+#", b"")?;
    page_row(out, b"\x01\x05#^^^^\x50\x00", b"2 1")?;
    // A file without its contents' end, and with a part of a body.
    page_row(out, b"\x01\x02#", b"1")?;
    page_row(out, b"\x01\x03###\x01\x20\x01", b"1")
}

// Document 02, (iv): mantissas split into digits.
fn split(out: &mut impl Write) -> io::Result<()> {
    // Nines, sevens and ones; digits that are one multiple of their power.
    image_row(out, b"\x01\x0d#############", plus(9999999999999, 0, 0))?;
    image_row(out, b"\x01\x0d#############", plus(7777777777777, 0, 0))?;
    image_row(out, b"\x01\x0d#############", plus(1111111111111, 0, 0))?;
    image_row(out, b"\x01\x0d#############", plus(8421842184218, 0, 0))?;
    // Nothing left behind the first digit, and zeros inside.
    image_row(out, b"\x01\x0d#############", plus(8000000000000, 0, 0))?;
    image_row(out, b"\x01\x0d#############", plus(1000000000000, 0, 0))?;
    image_row(out, b"\x01\x0d#############", plus(1000000000001, 0, 0))?;
    image_row(out, b"\x01\x0d#############", plus(9090909090909, 0, 0))?;
    // Every digit, rising and falling.
    image_row(out, b"\x01\x0d#############", plus(1234567890123, 0, 0))?;
    image_row(out, b"\x01\x0d#############", plus(9876543210987, 0, 0))?;
    // With a point, with a sign, with digits that are cut off, and exponential.
    image_row(out, b"\x01\x0e#.############", plus(5678901234567, 0, 12))?;
    image_row(out, b"\x01\x0f+######.#######", minus(6543210987654, 0, 7))?;
    image_row(out, b"\x01\x04####", plus(1234567890123, 0, 9))?;
    image_row(out, b"\x01\x0d#########^^^^", plus(3456789012345, 0, 4))
}

// Document 02, (vi): files merged. The second column of the first rows tells the camera.
fn merged(out: &mut impl Write) -> io::Result<()> {
    // Each camera's records in order; on equal first columns those of the file named first stand first, whole records equal ones too.
    merge_row(
        out,
        b"\x02\x02##\x01#\x05\x10\x12\x10\x12\x00\x99\x10",
        b"\x02\x02##\x01#\x00\x20\x12\x20\x12\x00\x34\x20\x99\x20",
    )?;
    merge_row(
        out,
        b"\x02\x02##\x01#\x00\x20\x12\x20\x12\x00\x34\x20\x99\x20",
        b"\x02\x02##\x01#\x05\x10\x12\x10\x12\x00\x99\x10",
    )?;
    // No records in one file, or in both.
    merge_row(
        out,
        b"\x02\x02##\x01#\x05\x10\x12\x10\x12\x00\x99\x10",
        b"\x02\x02##\x01#",
    )?;
    merge_row(
        out,
        b"\x02\x02##\x01#",
        b"\x02\x02##\x01#\x00\x20\x12\x20\x12\x00\x34\x20\x99\x20",
    )?;
    merge_row(out, b"\x02\x02##\x01#", b"\x02\x02##\x01#")?;
    // One column: the same record more than once in one file and in both.
    merge_row(
        out,
        b"\x01\x02##\x05\x05\x12",
        b"\x01\x02##\x05\x12\x12\x13",
    )
}

// Document 02, (vi): files that are refused.
fn not_merged(out: &mut impl Write) -> io::Result<()> {
    // Contents that differ in a length, in a point's place and in the count of columns.
    merge_row(out, b"\x01\x01#\x10", b"\x01\x02##\x10")?;
    merge_row(out, b"\x01\x04##.#\x01\x20", b"\x01\x04#.##\x01\x20")?;
    merge_row(
        out,
        b"\x02\x02##\x01#\x05\x10\x12\x10\x12\x00\x99\x10",
        b"\x01\x02##\x05\x12",
    )?;
    // A first column of another kind, signed and exponential.
    merge_row(out, b"\x01\x02+#\x05\x03", b"\x01\x02+#")?;
    merge_row(out, b"\x01\x05#^^^^\x50\x00", b"\x01\x05#^^^^\x50\x00")?;
    // Records that fall, in the first file and in the second; behind contents that differ.
    merge_row(out, b"\x01\x02##\x05\x12\x11", b"\x01\x02##\x05\x12")?;
    merge_row(out, b"\x01\x02##\x05\x12", b"\x01\x02##\x05\x12\x11")?;
    merge_row(out, b"\x01\x02##\x05\x12\x11", b"\x01\x02+#\x05\x03")?;
    merge_row(out, b"\x01\x02+#\x05\x03", b"\x01\x02##\x05\x12\x11")?;
    // A bad half of the second file comes before contents that differ, and before records of the first that fall.
    merge_row(out, b"\x01\x02##\x05\x12", b"\x01\x01#\x1a")?;
    merge_row(out, b"\x01\x02##\x05\x12\x11", b"\x01\x02##\x05\xa0")?;
    // The first file's refusal comes before the second's: a bad half, a part of a body, too many columns. Then the second's alone.
    merge_row(out, b"\x02\x01#\x01#\x10\x10\x20\x2a", b"\x01\x02#")?;
    merge_row(out, b"\x01\x03###\x01\x20\x01", b"\x00")?;
    merge_row(out, b"\x11\x01#", b"\x01\x01x")?;
    merge_row(out, b"\x01\x02##\x05\x12", b"\x00")
}

// Document 02, (vii): places reserved behind a file in a buffer.
fn reserved(out: &mut impl Write) -> io::Result<()> {
    // A record in the file, or none, with room behind; no room; two columns.
    reserve_row(out, b"\x01\x02##\x05\x00\x00", 5)?;
    reserve_row(out, b"\x01\x02##\x05\x00\x00", 4)?;
    reserve_row(out, b"\x01\x02##", 4)?;
    reserve_row(out, b"\x02\x02##\x01#\x05\x10\x00\x00", 8)?;
    // Refused: a part of a body, a used length past the buffer, no contents, no columns, a byte that no image has, 14 digits.
    reserve_row(out, b"\x02\x02##\x01#\x05\x10\x00\x00", 7)?;
    reserve_row(out, b"\x01\x02##", 5)?;
    reserve_row(out, b"\x01\x02##", 0)?;
    reserve_row(out, b"\x00", 1)?;
    reserve_row(out, b"\x01\x01X", 3)?;
    reserve_row(out, b"\x01\x0e##############", 16)
}

// Document 02, (vii): records written where a place was reserved, or refused as the place, the file or its contents is.
fn written_reserved(out: &mut impl Write) -> io::Result<()> {
    // Written; another place and another size.
    write_row(out, b"\x01\x02##\x05\x00\x00", 5, place(5, 1), b"12")?;
    write_row(out, b"\x01\x02##\x05\x00\x00", 5, place(4, 1), b"12")?;
    write_row(out, b"\x01\x02##\x05\x00\x00", 5, place(5, 2), b"12")?;
    // Two columns: written; a part of a body, and another size, which comes before it.
    write_row(
        out,
        b"\x02\x02##\x01#\x05\x10\x00\x00",
        8,
        place(8, 2),
        b"5 2",
    )?;
    write_row(
        out,
        b"\x02\x02##\x01#\x05\x10\x00\x00",
        7,
        place(7, 2),
        b"5 2",
    )?;
    write_row(
        out,
        b"\x02\x02##\x01#\x05\x10\x00\x00",
        7,
        place(7, 1),
        b"5 2",
    )?;
    // A used length past the buffer and a byte that no image has come before another place.
    write_row(out, b"\x01\x02##", 5, place(4, 1), b"12")?;
    write_row(out, b"\x01\x01X", 3, place(4, 1), b"12")
}

// Document 02, (vii): lists that are refused at a reserved place, and records that find no room there.
fn not_written(out: &mut impl Write) -> io::Result<()> {
    // An empty list; another place comes before it.
    write_row(out, b"\x01\x02##\x05\x00", 5, place(5, 1), b"")?;
    write_row(out, b"\x01\x02##\x05\x00", 5, place(4, 1), b"")?;
    // A number that exceeds, and one that is not in normal form.
    write_row(out, b"\x01\x02##\x05\x00", 5, place(5, 1), b"100")?;
    list_row(out, b"\x01\x02##\x05\x00", 5, place(5, 1), &[NOT_NORMAL])?;
    // No room; a number that exceeds comes before it.
    write_row(out, b"\x01\x02##\x05", 5, place(5, 1), b"12")?;
    write_row(out, b"\x01\x02##\x05", 5, place(5, 1), b"100")
}

// Texts entered as records: listings, and texts of lines alone.
fn entered(out: &mut impl Write) -> io::Result<()> {
    // A listing; lines without a listing's first and last, with blanks, and without the last 0A.
    enter_row(
        out,
        b"\x02\x03###\x06+##.##",
        b"columns 2\n012 +24.39\n999 -99.99\nrecords 2\n",
        ROOM,
    )?;
    enter_row(
        out,
        b"\x02\x0b########.##\x05-##.#",
        b"16777216 0\n 16777216.5  - 1.5 \n16777217 +.5E1",
        ROOM,
    )?;
    // No record: no line, and a listing's first and last.
    enter_row(out, b"\x01\x02##", b"", ROOM)?;
    enter_row(out, b"\x01\x02##", b"columns 1\nrecords 0\n", ROOM)?;
    // A fraction and a sign that the image has no place for are dropped, as packing does.
    enter_row(out, b"\x01\x02##", b"99.99\n-12\n", ROOM)
}

// Texts that are refused as records, each at its first bad line, and files that find no room.
fn not_entered(out: &mut impl Write) -> io::Result<()> {
    // Another count of columns, and of records; a listing's first line that is not the first.
    enter_row(out, b"\x01\x02##", b"columns 2\n05\nrecords 1\n", ROOM)?;
    enter_row(out, b"\x01\x02##", b"columns 1\n05\nrecords 2\n", ROOM)?;
    enter_row(out, b"\x01\x02##", b"05\ncolumns 1\n", ROOM)?;
    // An empty line, and a line of blanks.
    enter_row(out, b"\x01\x02##", b"05\n\n12\n", ROOM)?;
    enter_row(out, b"\x01\x02##", b"05\n  \n12\n", ROOM)?;
    // Numbers that are not parted by blanks, and one whose e is outside its limits.
    enter_row(out, b"\x02\x02##\x01#", b"12 1\n1-2\n", ROOM)?;
    enter_row(out, b"\x02\x02##\x01#", b"12 1x\n", ROOM)?;
    enter_row(out, b"\x02\x02##\x01#", b"12 99E99\n", ROOM)?;
    // Numbers that exceed.
    enter_row(out, b"\x02\x02##\x01#", b"12 1\n100 10\n", ROOM)?;
    // No room; a byte that no image has comes before it, and before the lines.
    enter_row(out, b"\x01\x02##", b"05\n12\n", 5)?;
    enter_row(out, b"\x01\x01X", b"x\n", 0)
}

// Files that were cut short.
fn cut_short(out: &mut impl Write) -> io::Result<()> {
    // Two whole records; the second one torn.
    whole_row(out, b"\x02\x03###\x01#\x01\x20\x10\x99\x90\x20")?;
    whole_row(out, b"\x02\x03###\x01#\x01\x20\x10\x99\x90")?;
    // Contents that is not whole; a bad half, which plays no part here.
    whole_row(out, b"\x02\x03###\x01")?;
    whole_row(out, b"\x01\x03###\x0a\x20\x01")
}

// Known values printed, both marked *.
fn known_lines(out: &mut impl Write) -> io::Result<()> {
    line_row(out, b"#,###.#", b"34")?;
    line_row(out, b"##", b"1234")
}

// 000, PRINTUSING and errors. The line starts right behind the %. Differences of dialect: a line end is carriage return and line feed,
// and one stands behind the last line too; a dollar sign belongs to the field and stands before the first digit, here it is a literal.
// Left out: the third example (1;2;3 in one line), as semicolons that hold back line ends are not in document 01.
fn printed_lines(out: &mut impl Write) -> io::Result<()> {
    // Misprint of 000: ANGLE = 2.30 LENGTH = +27.1. The line has - for =, and +##.## keeps two digits; 001 has +##.#.
    line_row(out, b" ANGLE - ##.## LENGTH = +##.##", b"2.3;27.123")?;
    line_row(out, b" #.#", b"1;2;3")?;
    // The dollar sign: 000 prints $73,694.23.
    line_row(
        out,
        b"TOTAL SALES = ##### VALUE $###,###.##",
        b"1242.3;73694.23",
    )?;
    // Misprint of 000: three up arrows, which its error 38 refuses. In document 01 they are literal bytes.
    line_row(out, b" COEFF = +.###^^^ ERROR = -##^^^", b"2.13E-5;2.3E-9")?;
    line_row(
        out,
        b" COEFF = +.###^^^^ ERROR = -##^^^^",
        b"2.13E-5;2.3E-9",
    )?;
    // 001 has this too. Difference of dialect: it prints ##### where a number exceeds.
    line_row(out, b" +#.##", b"317.23")?;
    // Misprint of 000: $ for the % that begins the line.
    line_row(out, b" PROFIT AND LOSS STATEMENT", b"")?;
    // Misprint of 000: J. SMITH printed whole under five #; then under eight. The dollar sign: 000 prints $9,237.51.
    line_row(
        out,
        b" SALESMAN ##### TOTAL SALES $##,###.##",
        b"J. SMITH;9237.51",
    )?;
    line_row(
        out,
        b" SALESMAN ######## TOTAL SALES $##,###.##",
        b"J. SMITH;9237.51",
    )?;
    // Error 36: no field; its correction, of which 000 gives no print.
    line_row(out, b" AMOUNT =", b"1.23")?;
    line_row(out, b" AMOUNT = #####", b"1.23")
}

// 001, PRINT USING and errors. Difference of dialect: its exponent marks are !!!!, here ^^^^.
// Left out: 1;2;3 in one line, as above, and in three lines, which is a row above.
fn earlier_lines(out: &mut impl Write) -> io::Result<()> {
    line_row(out, b" ANGLE=##.## LENGTH=+##.#", b"2.3;-27.123")?;
    // Misprint of 001: $73694.23 under ########, which keeps no fraction; then under #####.##.
    line_row(
        out,
        b" TOTAL SALES- #### VALUE- $########",
        b"1242;73694.23",
    )?;
    line_row(
        out,
        b" TOTAL SALES- #### VALUE- $#####.##",
        b"1242;73694.23",
    )?;
    line_row(
        out,
        b" COEFFICIENT= +.###^^^^ ERROR= -##^^^^",
        b"2.13E-5;2.3E-9",
    )?;
    line_row(out, b" SALESMAN: ########", b"JOHN DOE")?;
    // MAT PRINT USING, two examples. Difference of dialect: in the first, a semicolon prints each row of the array as one line; and a
    // blank line parts two rows.
    line_row(
        out,
        b" +#.#^^^^",
        b"6.2E-7;-1.3E-17;7.3E-11;1.2E-8;-3.9E-8;-4.9E-8;6.9E-10;8.4E-9;5.2E-14;-5.4E-13",
    )?;
    line_row(
        out,
        b" ANGLE= ###.## DEG ERROR= ##.##",
        b"36.49;5.21;85.60;11.92;135.51;8.61",
    )?;
    // Error 47, with a number of ours. Difference of dialect: 001 refuses the line itself, document 01 only elements for it.
    line_row(out, b" THE ANSWER IS - - -", b"1")
}

// 004, CONVERT and PRINTUSING. Differences of dialect: a leading sign or dollar sign stands before the first digit, and a number that
// exceeds prints the field with the number's sign. Left out: the line with trailing ++ and --, and the pictures of FMT (0, *, B and /).
fn later_lines(out: &mut impl Write) -> io::Result<()> {
    // CONVERT, which in 004 is as printing.
    line_row(out, b"####", b"10")?;
    // Its values are not given; these are ours. Misprint of 004: its words give the second image as -###.#.
    line_row(out, b"-### XYZ -###.##", b"1;2;3")
}

// Line images that the manuals show without values.
fn fields(out: &mut impl Write) -> io::Result<()> {
    // 000, IMAGE. Difference of dialect, also in the next lines: a dollar sign belongs to the field.
    fields_row(out, b" CODE NO. = ##### COMPOSITION = ## ###")?;
    fields_row(out, b" ##### UNITS AT $#,###.## PER UNIT")?;
    fields_row(out, b" +#.##^^^^")?;
    // 000, SELECT, RETURN (004 too) and error 37.
    fields_row(out, b"TOTAL VALUE RECEIVED:$#,###.##")?;
    fields_row(out, b" COST = $#,###,###.## CODE = ####")?;
    fields_row(out, b" AMOUNT = $#,###.##")?;
    // 000, error 38. Difference of dialect: refused there for its three up arrows. Its correction, which 004, PRINTUSING, has too.
    fields_row(out, b" ##.##^^^")?;
    fields_row(out, b" ##.##^^^^")?;
    // 001, IMAGE. Difference of dialect: its !!!! belong to the field.
    fields_row(out, b" ##.###!!!!")?;
    fields_row(out, b" +#######")?;
    // 001, errors 47 and 48.
    fields_row(out, b" THE ANSWER IS ###")?;
    fields_row(out, b" A=####")?;
    // 004, IMAGE.
    fields_row(out, b"FEAR IN A HANDFUL OF DUST +###,###,###.##")
}

// All rows.
fn print_rows(out: &mut impl Write) -> io::Result<()> {
    known_images(out)?;
    manual_images(out)?;
    sizes(out)?;
    bodies(out)?;
    known_texts(out)?;
    constants(out)?;
    later_constants(out)?;
    remarks(out)?;
    cut_off(out)?;
    found(out)?;
    split(out)?;
    spaced(out)?;
    merged(out)?;
    not_merged(out)?;
    reserved(out)?;
    written_reserved(out)?;
    not_written(out)?;
    entered(out)?;
    not_entered(out)?;
    cut_short(out)?;
    known_lines(out)?;
    printed_lines(out)?;
    earlier_lines(out)?;
    later_lines(out)?;
    fields(out)
}

// Writes all rows to standard output; a failure is told.
fn main(rt: HostRuntime) {
    let _ = console::told(&rt, print_rows(&mut io::writer(&rt)));
}
