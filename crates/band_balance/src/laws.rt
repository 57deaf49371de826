//! Laws of an object: what each rule that is allowed does to it. Names are bytes.
ghost use Rattle.std.specs.Prelude.{◌≡◌, ◌||◌, List, [], ℕ, true, false, map, pos, ◌+ℤ◌};
ghost use Rattle.std.specs.Str.{bytes_eq};
ghost use Rattle.band_balance.specs.Object.{Object, Tag};
ghost use Rattle.band_balance.specs.Rule.{Rule, IsAllowed, act, brought, removed, may_grant, may_wake, closes, leaver};
ghost use Rattle.band_balance.specs.Laws.{permits, HasAShare, IsOrderly, IsWithin, KeepsShares, IsExclusive, told_between, GrantsAFront, ObjectsAlike, TurnsAlike};

/// What is free, granted and held of an object adds up with what the rule brings and what it takes away for good.
pub fn permits_add_up()
    ensures { (rule : Rule (List ℕ)) → (object : Object (Tag (List ℕ))) → IsAllowed bytes_eq rule object
        → HasAShare object.kind
        → permits (act bytes_eq rule object).object +ℤ pos (removed bytes_eq rule object)
        ≡ permits object +ℤ pos (brought rule) }
{}

/// The first that waits waits for more than is free, a name has one request at most, and each entry is one that can be asked for.
pub fn rules_keep_order()
    ensures { (rule : Rule (List ℕ)) → (object : Object (Tag (List ℕ))) → IsAllowed bytes_eq rule object
        → IsOrderly bytes_eq object → IsOrderly bytes_eq (act bytes_eq rule object).object }
{}

/// What is granted and held stays within the largest count, and so does what is owed.
pub fn rules_keep_bounds()
    ensures { (rule : Rule (List ℕ)) → (object : Object (Tag (List ℕ))) → IsAllowed bytes_eq rule object
        → HasAShare object.kind
        → IsWithin object → IsWithin (act bytes_eq rule object).object }
{}

/// Nothing is owed of a lock, and it has all of its shares.
pub fn rules_keep_shares()
    ensures { (rule : Rule (List ℕ)) → (object : Object (Tag (List ℕ))) → IsAllowed bytes_eq rule object
        → HasAShare object.kind
        → KeepsShares object → KeepsShares (act bytes_eq rule object).object }
{}

/// A close closes, no other rule does, and what is closed stays closed.
pub fn closing_is_for_good()
    ensures { (rule : Rule (List ℕ)) → (object : Object (Tag (List ℕ))) → IsAllowed bytes_eq rule object
        → (act bytes_eq rule object).object.closed ≡ closes rule || object.closed }
{}

/// So a write that is granted or held is the only entry that is, and of a mutex there is one at most.
pub fn who_writes_is_alone()
    ensures { (object : Object (Tag (List ℕ))) → HasAShare object.kind → IsOrderly bytes_eq object
        → KeepsShares object → IsExclusive object }
{}

/// A rule wakes those that waited before it and are granted or ended after it, in order, each by the waker that the line keeps
/// for it.
pub fn rules_wake_who_is_told()
    ensures { (rule : Rule (List ℕ)) → (object : Object (Tag (List ℕ))) → IsAllowed bytes_eq rule object
        → IsOrderly bytes_eq object
        → (act bytes_eq rule object).woken ≡ map (λ w. w.waker)
        (told_between bytes_eq object (act bytes_eq rule object).object) }
{}

/// A rule wakes nobody, unless something comes back, a request leaves, or the object is closed.
pub fn only_giving_back_and_closing_wake()
    ensures { (rule : Rule (List ℕ)) → (object : Object (Tag (List ℕ))) → IsAllowed bytes_eq rule object
        → IsOrderly bytes_eq object
        → may_wake rule ≡ false → (act bytes_eq rule object).woken ≡ [] }
{}

/// Where something comes back or a request leaves, a front of those that waited is granted, and nobody while permits are owed.
pub fn rules_grant_a_front()
    ensures { (rule : Rule (List ℕ)) → (object : Object (Tag (List ℕ))) → IsAllowed bytes_eq rule object
        → IsOrderly bytes_eq object
        → may_grant rule ≡ true → GrantsAFront bytes_eq (leaver bytes_eq rule object) object.line
        (act bytes_eq rule object).object.line }
{}

/// No rule looks at the order of those granted or of those ended: of objects that differ in these alone, a rule answers and wakes
/// the same, and makes objects that differ in these alone.
pub fn rules_look_at_no_order()
    ensures { (rule : Rule (List ℕ)) → (one other : Object (Tag (List ℕ))) → IsOrderly bytes_eq one
        → ObjectsAlike one other
        → TurnsAlike (act bytes_eq rule one) (act bytes_eq rule other) }
{}
