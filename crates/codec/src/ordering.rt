// The order of columns under an unsigned fixed-point image, by their bytes (document 02, (iii) and (vi)).
ghost use Rattle.std.specs.Prelude.{◌≡◌, ◌%◌, ◌^◌, ◌≤◌, take};
ghost use Rattle.codec.specs.Order.{Bytes};
ghost use Rattle.codec.specs.Ordering.{run_of, least_of};

use crate::cut::number_of_cut;
use crate::packing::column_run;
use decimal::{Image, Number, cut_number};

// Bytes as one whole number, of which the last eight are kept.
fn whole_run(bytes: &[u8]) -> u64
    ensures { result ≡ run_of bytes.now % 2 ^ 64 }
{
    let mut run: u64 = 0;
    for byte in bytes {
        run = run.wrapping_mul(256).wrapping_add(u64::from(*byte));
    }
    run
}

// The first of eight bytes, so many, as one whole number.
fn front_run(front: [u8; 8], size: usize) -> u64
    requires { (1 ≤ size) × (size ≤ 8) × Bytes front }
    ensures { result ≡ run_of (take size front) }
{
    u64::from_be_bytes(front) >> (8 * (8 - size))
}

// So many bytes at the front, or all where there are fewer, as one whole number, of which the last eight are kept. An unsigned fixed-point
// column has no more, and columns of one image are in the order of these.
pub fn ordered_run(bytes: &[u8], size: usize) -> u64
    ensures { result ≡ run_of (take size bytes.now) % 2 ^ 64 }
{
    if size == 0 {
        return 0;
    }
    match bytes.first_chunk::<8>() {
        Some(front) if size <= 8 => front_run(*front, size),
        _ => whole_run(&bytes[..size.min(bytes.len())]),
    }
}

// From which run on columns under an unsigned fixed-point image are at least a number in normal form; none where no column is.
pub fn least_run(image: Image, number: Number) -> Option<u64>
    ensures { result ≡ least_of image number }
{
    if number.negative {
        return Some(0);
    }
    let Ok(cut) = cut_number(image, number, 0) else {
        return None;
    };
    let run = (column_run(&cut) % (1 << 64)) as u64;
    if number_of_cut(&cut) == number {
        Some(run)
    } else {
        run.checked_add(1)
    }
}
