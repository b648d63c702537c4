// Puts an answer's numbers into `answer`.
ghost use Rattle.std.specs.Prelude.{◌≡◌, ◌≤◌, length};
ghost use Rattle.codec.specs.Store.{store};

// From its start; the rest stays as it was.
pub(crate) fn put(answer: &mut [usize; 7], numbers: &[usize])
    requires { length numbers.now ≤ 7 }
    ensures { answer.new ≡ store answer.old 0 numbers.now }
{
    answer[..numbers.len()].copy_from_slice(numbers);
}
