// How many places pass a test, where those that pass come first. The places are asked by threes, so that each of the three is asked
// whatever the others answer, and the processor need not guess.
ghost use Rattle.std.specs.Prelude.{◌≡◌, ℕ, ◌<◌, ◌≤◌, ◌^◌, Bool};
ghost use Rattle.list.specs.Parting.{ComeFirst, PartedAt};

// Where those that pass end, among the places from `first` on and before `past`.
fn end_of_passing<F: Fn(usize) -> bool>(first: usize, past: usize, passes: F) -> usize
    requires order { first ≤ past }
    requires callable { (n : _) → first ≤ n → n < past → F.pre passes n }
    ensures { (p : ℕ → Bool) → ((n : _) (b : Bool) → first ≤ n → n < past → F.post passes n b → b ≡ p n) → ComeFirst p first past → PartedAt p first past result }
{
    let mut end = first;
    for place in first..past {
        end += usize::from(passes(place));
    }
    end
}

// Where those that pass end, among the places before `count`.
pub(crate) fn parting<F: Fn(usize) -> bool>(count: usize, passes: F) -> usize
    requires small { count ≤ 65536 }
    requires callable { (n : _) → n < count → F.pre passes n }
    ensures { (p : ℕ → Bool) → ((n : _) (b : Bool) → n < count → F.post passes n b → b ≡ p n) → ComeFirst p 0 count → PartedAt p 0 count result }
{
    let mut first = 0;
    let mut size = count;
    while size >= 4 {
        let step = size / 4;
        let one = usize::from(passes(first + step));
        let two = usize::from(passes(first + 2 * step));
        let three = usize::from(passes(first + 3 * step));
        first += step * (one + two + three);
        size -= 3 * step;
    }
    end_of_passing(first, first + size, passes)
}
