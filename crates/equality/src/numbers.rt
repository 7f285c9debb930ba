// Lists of numbers.
ghost use Rattle.std.specs.Prelude.{◌≡◌};
ghost use Rattle.equality.specs.Tells.{Tells, Begins};

// The numbers are the ones expected.
pub fn same_numbers(numbers: &[usize], expected: &[usize]) -> bool
    ensures { Tells result (numbers.now ≡ expected.now) }
{
    numbers == expected
}

// The first `count` of these numbers are the ones expected.
pub fn begin_with(numbers: &[usize], count: usize, expected: &[usize]) -> bool
    ensures { Tells result (Begins numbers.now count expected.now) }
{
    count <= numbers.len() && same_numbers(&numbers[..count], expected)
}
