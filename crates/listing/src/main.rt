// Prints the listing of the record file on standard input, or its refusal (document 01: Record file). Where reading fails nothing of a
// listing is printed, and standard error tells it; a failed write is told there too.
#![tactic(auto)]

// One byte more than a file may have, so that a longer one is seen.
const INPUT_LENGTH: usize = records::MAX_FILE + 1;

// Reads the input, and writes its report.
fn main(rt: HostRuntime) {
    let mut input = [0u8; INPUT_LENGTH];
    if let Ok(size) = console::read_input(&rt, &mut input) {
        let mut output = [0u8; records::MAX_REPORT];
        let answer = records::report(&input[..size], &mut output);
        let _ = console::write_output(&rt, codec::written_part(answer, &output));
    }
}
