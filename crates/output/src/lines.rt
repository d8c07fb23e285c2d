// The lines of the input.
ghost use Rattle.std.specs.Prelude.{◌≡◌, ◌+◌, ◌≤◌, length, drop};
ghost use Rattle.output.specs.Lines.{until_lf};
ghost use Rattle.refusal.specs.Lent.{was};

// Where the line ends that begins at `from`: at its LF, or at the end of the input.
pub(crate) fn line_end(input: &[u8], from: usize) -> usize
    requires { from ≤ length input.now }
    ensures { result ≡ from + until_lf (drop from (was input)) }
{
    for i in from..input.len() {
        if input[i] == 0x0A {
            return i;
        }
    }
    input.len()
}
