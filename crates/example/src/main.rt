// Makes a record file of three positions that one single float can't tell apart, and writes it to standard output.
#![tactic(auto)]

use decimal::{Number, Refusal};

// Makes the file in a buffer: one column of steps and hundredths, then a record for each position. Gives the file's length.
fn make_file(file: &mut [u8]) -> Result<usize, Refusal> {
    let used = records::write_contents(b"\x01\x0b########.##", &mut *file)?;
    let used = records::add(used, &[Number::from_steps(16_777_216)?], &mut *file)?;
    let between = Number::from_scaled(false, 1_677_721_625, 0, 2, 0)?;
    let used = records::add(used, &[between], &mut *file)?;
    records::add(used, &[Number::from_steps(16_777_217)?], &mut *file)
}

// Writes the file to standard output; nothing where a call says no.
fn main(rt: HostRuntime) {
    let mut file = [0u8; 64];
    let answer = make_file(&mut file);
    let _ = console::write_output(&rt, codec::written_part(answer, &file));
}
