// Numbers, elements and reserved places out of bytes. A number or an element has ITEM bytes: a kind, 0 for a number, 1 for a negative one,
// 2 for a text; then two whole numbers of eight bytes, the mantissa and the exponent plus EXPONENT_LIMIT, or a text's start and length.
use crate::words::whole;
use arrayvec::ArrayVec;
use decimal::Number;
use records::{Element, MAX_ELEMENTS, Reservation};

// The bytes of an item.
const ITEM: usize = 1 + 2 * WHOLE;

// The bytes of a whole number of an item.
const WHOLE: usize = 8;

// The most items that are read of a list: one more than any call takes, so that a longer list is refused.
const LISTED: usize = MAX_ELEMENTS + 1;

// The element of an item. Its kind is a byte of the input, which is read only here: above 2 it is read as 0 is.
fn element_of(item: &[u8; ITEM]) -> Element {
    let (first, second) = item[1..].split_at(WHOLE);
    let (first, second) = (whole(first), whole(second));
    match item[0] {
        2 => Element::Text(first, second),
        kind => Element::Number(Number {
            negative: kind == 1,
            mantissa: first as u64,
            exponent: second,
        }),
    }
}

// The number of an element; zero for a text.
fn number_of(element: Element) -> Number {
    match element {
        Element::Number(number) => number,
        Element::Text(_, _) => Number::ZERO,
    }
}

// The number whose item bytes begin with; zero where they are too short.
pub(crate) fn number_in(bytes: &[u8]) -> Number {
    match bytes.first_chunk() {
        Some(item) => number_of(element_of(item)),
        None => Number::ZERO,
    }
}

// What is made of each element of a list, up to LISTED of them.
fn made_of<T: Copy + Default, F: Fn(Element) -> T>(bytes: &[u8], make: F) -> ArrayVec<T, LISTED>
    requires { F.IsAlwaysCallable make }
{
    let (items, _) = bytes.as_chunks::<ITEM>();
    let mut made = ArrayVec::new();
    for item in items {
        if made.is_full() {
            break;
        }
        made.push(make(element_of(item)));
    }
    made
}

// The elements of a list, up to LISTED.
pub(crate) fn elements_in(bytes: &[u8]) -> ArrayVec<Element, LISTED> {
    made_of(bytes, |element| element)
}

// The numbers of a list, up to LISTED.
pub(crate) fn numbers_in(bytes: &[u8]) -> ArrayVec<Number, LISTED> {
    made_of(bytes, number_of)
}

// The place that is reserved: its start in the first WHOLE bytes, its length in those behind them.
pub(crate) fn reservation_in(bytes: &[u8]) -> Reservation {
    let (start, size) = bytes.split_at(bytes.len().min(WHOLE));
    Reservation {
        start: whole(start),
        size: whole(size),
    }
}
