ghost use Rattle.std.specs.Prelude.{◌≡◌, ◌<◌, Bool, length, take, filter, count_by, slice_get};
ghost use Rattle.list_laws.specs.Asking.{IsAskable, AnswersBy, KeepsMoreThan};

/// How many of the items the test is true of.
pub fn count_where<T, F: Fn(&T) -> bool>(items: &[T], test: F) -> usize
    requires { IsAskable F.Fn test items.now }
    ensures { (p : T → Bool) → AnswersBy F.Fn test p items.now →
        result ≡ count_by p items.now }
{
    let mut count = 0;
    for item in items {
        if test(item) {
            count += 1;
        }
    }
    count
}

/// The place of the kept item number `nth`, from 0: the items that the test is true of are kept.
pub fn keep_where<T, F: Fn(&T) -> bool>(items: &[T], test: F, nth: usize) -> usize
    requires askable { IsAskable F.Fn test items.now }
    requires more { KeepsMoreThan F.Fn test nth items.now }
    ensures within { result < length items.now }

    // As many of the items before the place are kept, and the item there is the one of that number among the kept.
    ensures before { (p : T → Bool) → AnswersBy F.Fn test p items.now →
        count_by p (take result items.now) ≡ nth }
    ensures kept { (p : T → Bool) → AnswersBy F.Fn test p items.now
        → slice_get (filter p items.now) nth ≡ slice_get items.now result }
{
    let mut before = 0;
    for (place, item) in items.iter().enumerate() {
        if test(item) {
            if before == nth {
                return place;
            }
            before += 1;
        }
    }
    unreachable!()
}
