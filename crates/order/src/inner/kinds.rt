// What the order rules ask of an entry's type.
ghost use Rattle.std.specs.Prelude.{◌≡◌, eqb};
ghost use Rattle.wal.specs.Entry.{begin, commit, rollback, checkpoint};
ghost use Rattle.rules.specs.Shape.{either, is_known};

use wal::Kind;

// Whether a type is known.
#[tactic(auto, using(crate::proofs::ByKind::known_by_kind))]
pub fn is_known(kind: u8) -> bool
    ensures { result ≡ is_known kind }
{
    Kind::of(kind).is_some()
}

// Whether an entry of this type begins a transaction.
#[tactic(auto, using(crate::proofs::ByKind::begin_by_kind))]
pub fn is_begin(kind: u8) -> bool
    ensures { result ≡ eqb kind begin }
{
    Kind::of(kind) == Some(Kind::Begin)
}

// Whether an entry of this type ends a transaction.
#[tactic(auto, using(crate::proofs::ByKind::end_by_kind))]
pub fn is_end(kind: u8) -> bool
    ensures { result ≡ either (eqb kind commit) (eqb kind rollback) }
{
    matches!(Kind::of(kind), Some(Kind::Commit | Kind::Rollback))
}

// Whether it is a Checkpoint.
#[tactic(auto, using(crate::proofs::ByKind::checkpoint_by_kind))]
pub fn is_checkpoint(kind: u8) -> bool
    ensures { result ≡ eqb kind checkpoint }
{
    Kind::of(kind) == Some(Kind::Checkpoint)
}
