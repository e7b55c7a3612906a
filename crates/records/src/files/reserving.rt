// Adding a record in two calls: the first reserves its place, the second writes it (document 02, (vii)).
ghost use Rattle.std.specs.Prelude.{◌≡◌};
ghost use Rattle.decimal.specs.Answer.{meaning, mapped};
ghost use Rattle.records.specs.Files.RecordFile.{new_length, written_behind};
ghost use Rattle.records.specs.Files.Reserving.{reserved, check_place, read_reserved, filled};

use crate::files::record_file::{RecordFile, pack_behind, read_used};
use codec::Contents;
use decimal::{Number, Reason, Refusal};

// A place that is reserved for a body: where it goes, and how many bytes it fills.
#[derive(Clone, Copy, Debug, PartialEq, Eq, Hash)]
pub struct Reservation {
    pub start: usize,
    pub size: usize,
}

// Reserves the place of a record behind the file in the first bytes of a buffer: nothing changes.
// Refused with 11 for the used length, then as the file is; that a body finds no room there is no refusal.
#[tactic(auto, using(crate::proofs::FileProofs::ReserveLaws::reserves_refused, crate::proofs::FileProofs::ReserveLaws::reserves_read))]
pub fn reserve(buffer: &[u8], used: usize) -> Result<Reservation, Refusal>
    ensures { meaning result ≡ reserved buffer.now used }
{
    let contents = read_used(buffer, used)?;
    Ok(Reservation {
        start: used,
        size: contents.body_size(),
    })
}

// Whether a used length and the size of a body are those of a place that was reserved: refused with 18.
#[tactic(auto, unfolding(crate::specs::Files::Reserving::check_place))]
fn check_place(used: usize, size: usize, reservation: Reservation) -> Result<(), Refusal>
    ensures { meaning result ≡ check_place used size reservation }
{
    let same = used == reservation.start && size == reservation.size;
    if same {
        Ok(())
    } else {
        Err(Refusal {
            reason: Reason::ReservationDiffers,
            place: 0,
        })
    }
}

// The contents of the file in the first bytes of a buffer, of which a place was reserved: refused with 11 for a used length past the buffer,
// as the contents is, with 18 where the used length or the size of a body is another, with 11 where a last body is incomplete.
#[tactic(auto, using(crate::proofs::FileProofs::ReserveLaws::table_first, crate::proofs::FileProofs::ReserveLaws::table_stopped, crate::proofs::FileProofs::ReserveLaws::table_checked), unfolding(decimal::specs::Answer::mapped, crate::specs::Files::Reserving::read_reserved))]
fn read_reserved(buffer: &[u8], used: usize, reservation: Reservation) -> Result<Contents, Refusal>
    ensures { meaning result ≡ read_reserved buffer.now used reservation }
{
    if buffer.len() < used {
        return Err(Refusal::WRONG_LENGTH);
    }
    let file = &buffer[..used];
    let contents = Contents::read_front(file)?;
    check_place(used, contents.body_size(), reservation)?;
    Ok(RecordFile::behind_contents(contents, file)?.into_contents())
}

// Writes a record where its place was reserved, and gives the used length with it: all other bytes stay. Refused with 11 for the used
// length, as the contents is, with 18 where the place is another now, with 11 for bodies, 10, items from the left with 3, 4, 5 and the
// column, last with 6; then no byte changes.
#[tactic(auto, using(crate::proofs::FileProofs::ReserveLaws::fills_refused, crate::proofs::FileProofs::ReserveLaws::fills_nothing, crate::proofs::FileProofs::ReserveLaws::fills_within, crate::proofs::FileProofs::ReserveLaws::fills_under))]
pub fn write_reserved(
    used: usize,
    reservation: Reservation,
    numbers: &[Number],
    buffer: &mut [u8],
) -> Result<usize, Refusal>
    ensures answer { meaning result ≡ new_length used (filled buffer.old used reservation numbers.now) }
    ensures bytes { buffer.new ≡ written_behind used (filled buffer.old used reservation numbers.now) buffer.old }
{
    let contents = read_reserved(&*buffer, used, reservation)?;
    pack_behind(&contents, used, numbers, buffer)
}
