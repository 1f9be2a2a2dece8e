// What counts and events of lists are good for. There is no code.
ghost use Rattle.mgs_ledger.specs.Counting.{CountsEach, CountsForUser};
ghost use Rattle.mgs_ledger.specs.ListChanges.{ListsAreFollowed};

/// Whatever is told is counted once: nothing is lost of it and nothing invented.
pub fn all_is_counted()
    ensures { CountsEach }
{}

/// It is counted for its user, and the counts of each other user stay.
pub fn each_user_is_counted()
    ensures { CountsForUser }
{}

/// A start follows each event of a list that the ledger writes: by the list of before it reads the list of after.
pub fn lists_are_followed()
    ensures { ListsAreFollowed }
{}
