// A line of input.
ghost use Rattle.std.specs.Prelude.{◌≡◌, position, ◌==◌};
ghost use Rattle.migdurk.specs.Lines.{before_comment};

// What stands before a comment.
pub(crate) fn uncommented(line: &[u8]) -> &[u8]
    ensures { result.now ≡ before_comment line.now }
{
    comment_start(line).map_or(line, |start| &line[..start])
}

// Where a comment starts.
fn comment_start(line: &[u8]) -> Option<usize>
    ensures { result ≡ position (λ c. c == 35) line.now }
{
    line.iter().position(|c| *c == b'#')
}
