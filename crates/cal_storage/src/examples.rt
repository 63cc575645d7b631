//! Worked examples of the laws: what small registries have after a few calls. Each function does nothing, and its
//! clauses are computed.

ghost use Rattle.std.specs.Prelude.{◌≡◌, ◌-◌, ◌^◌, ◌++◌, [], ◌∷◌, Some, None};
ghost use Rattle.cal_storage.specs.Changes.{opens, closes, withdraws};
ghost use Rattle.cal_storage.specs.Contents.{after_opening, after_close, entry_of, id_at};
ghost use Rattle.cal_storage.specs.Examples.{some_path, owner, guest, number, after_run, made, made_anew, held_by_two, closed_by_guests, begun, begun_and_made_anew, full};

/// An owner whose name was removed and made anew by another closes: its own entry has ended, and the other's name and
/// entry stay.
pub fn a_name_that_was_made_anew_stays_at_a_close()
    ensures name { id_at (after_run (made_anew ++ closes owner ∷ [])) some_path ≡ Some 1 }
    ensures own { entry_of (after_run (made_anew ++ closes owner ∷ [])) 0 ≡ None }
    ensures other { entry_of (after_run (made_anew ++ closes owner ∷ [])) 1 ≡ Some (number 873 1) }
{}

/// An owner that closes takes its name with it. Its entry has ended where nobody else holds it, and else stays.
pub fn an_owner_takes_its_name_with_it()
    ensures name { id_at (after_run (made ++ closes owner ∷ [])) some_path ≡ None }
    ensures alone { entry_of (after_run (made ++ closes owner ∷ [])) 0 ≡ None }
    ensures shared_name { id_at (after_run (made ++ opens 0 ∷ closes owner ∷ [])) some_path ≡ None }
    ensures shared { entry_of (after_run (made ++ opens 0 ∷ closes owner ∷ [])) 0 ≡ Some (number 444 1) }
{}

/// An entry that two hold and whose name was removed stays at the first close, and has ended after the second.
pub fn an_entry_ends_with_its_last_holder()
    ensures two { entry_of (after_run held_by_two) 0 ≡ Some (number 444 2) }
    ensures one { entry_of (after_run (held_by_two ++ closes guest ∷ [])) 0 ≡ Some (number 444 1) }
    ensures none { entry_of (after_run (held_by_two ++ closes guest ∷ closes owner ∷ [])) 0 ≡ None }
{}

/// An entry whose holders have all closed, none of them as its owner, stays under its name. Its count of holders
/// doesn't fall below 0.
pub fn an_entry_stays_under_its_name()
    ensures name { id_at (after_run closed_by_guests) some_path ≡ Some 0 }
    ensures entry { entry_of (after_run closed_by_guests) 0 ≡ Some (number 873 0) }
    ensures once_more { entry_of (after_run (closed_by_guests ++ closes guest ∷ [])) 0 ≡ Some (number 873 0) }
{}

/// A count of holders that has reached the greatest number neither rises at an opening nor falls at a close.
pub fn a_full_count_of_holders_stays()
    ensures opened { entry_of (after_opening full 0) 0 ≡ Some (number 444 (2 ^ 64 - 1)) }
    ensures closed { entry_of (after_close full guest) 0 ≡ Some (number 444 (2 ^ 64 - 1)) }
{}

/// A value that is refused at the end of its making takes its entry and its name with it.
pub fn a_withdrawal_takes_its_name()
    ensures name { id_at (after_run (begun ++ withdraws owner ∷ [])) some_path ≡ None }
    ensures entry { entry_of (after_run (begun ++ withdraws owner ∷ [])) 0 ≡ None }
{}

/// It takes no name that was made anew by another.
pub fn a_name_that_was_made_anew_stays_at_a_withdrawal()
    ensures name { id_at (after_run (begun_and_made_anew ++ withdraws owner ∷ [])) some_path ≡ Some 1 }
    ensures own { entry_of (after_run (begun_and_made_anew ++ withdraws owner ∷ [])) 0 ≡ None }
    ensures other { entry_of (after_run (begun_and_made_anew ++ withdraws owner ∷ [])) 1 ≡ Some (number 873 1) }
{}
