// Runs of half bytes and the bytes that they make, the high half first (document 01: Packed bodies).
ghost use Rattle.std.specs.Prelude.{◌≡◌, ◌*◌, ◌≤◌, length};
ghost use Rattle.decimal.specs.Digits.{halves_in};
ghost use Rattle.codec.specs.Halves.{pack_halves};

// Writes the bytes that the last half bytes of a run make, as many as the target has: the last bytes of the whole run.
pub(crate) fn write_run(run: u128, target: &mut [u8])
    requires { length target.old ≤ 16 }
    ensures { target.new ≡ pack_halves (halves_in (2 * length target.old) run) }
{
    let bytes = run.to_be_bytes();
    let skipped = bytes.len() - target.len();
    target.copy_from_slice(&bytes[skipped..]);
}
