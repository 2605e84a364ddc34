//! A node of three kinds, for the tests: a frame refers to two pieces, a texture to one, and a storage to none.

use ref_store::{NoMemory, Node};
use std::mem;

/// Frames have rank 2 and the slots 0 and 1, which take no memory. Textures have rank 1 and the slot 0, for which a full one
/// has no memory. Storages have rank 0 and no slot, and alone have a size.
#[derive(Drop)]
pub(crate) enum Piece {
    Frame(Option<u64>, Option<u64>),
    Texture(Option<u64>, Fullness),
    Storage(u16),
}

/// Whether a texture has memory for a reference.
#[derive(Clone, Copy, Drop)]
pub(crate) enum Fullness {
    Roomy,
    Full,
}

impl Node for Piece {
    ghost use Rattle.std.specs.Prelude.{ℕ, ◌==◌, ◌++◌, nat_lt, true, false, refl, if◌then◌else◌, [], None};
    ghost use Rattle.ref_store.specs.Counts.{as_list};
    ghost use Rattle.store_check.specs.TwoSlots.{is_edge_of, moves_of, new_edge_of, other_edges_of};
    ghost use Rattle.store_check.specs.OneSlot.{one_edge, one_moves, no_other, no_edge, no_slot, few_kinds, few_marks};
    ghost use Rattle.store_check.specs.declared.pieces.Piece.TheVariants.{Frame, Texture, Storage};

    ghost rank = { elim [ Frame a b ↦ 2 | Texture a f ↦ 1 | Storage n ↦ 0 ] };

    ghost edges = { elim [ Frame a b ↦ as_list a ++ as_list b | Texture a f ↦ as_list a | Storage n ↦ [] ] };

    ghost edge_at = { elim [ Frame a b ↦ λ slot. if slot == 0 then a else b | Texture a f ↦ λ _. a | Storage n ↦ λ _. None ] };

    ghost has_slot = { elim [ Frame a b ↦ λ slot. nat_lt slot 2 | Texture a f ↦ λ slot. slot == 0 | Storage n ↦ λ _. false ] };

    ghost fixed = { elim [ Frame a b ↦ λ _. true | Texture a f ↦ λ _. false | Storage n ↦ λ _. false ] };

    ghost after = { elim [
      | Frame a b ↦ λ slot _ target. Frame (if slot == 0 then target else a) (if slot == 0 then b else target)
      | Texture a f ↦ λ _ _ target. Texture target f
      | Storage n ↦ λ _ _ _. Storage n
    ] };

    ghost size = { elim [ Frame a b ↦ 0 | Texture a f ↦ 0 | Storage n ↦ n ] };

    ghost kind = { elim [ Frame a b ↦ 0 | Texture a f ↦ 1 | Storage n ↦ 2 ] };

    ghost mark = { elim [ Frame a b ↦ 0 | Texture a f ↦ 64 | Storage n ↦ 64 ] };

    ghost same_rank = { elim [ Frame a b ↦ λ _ _ _. refl | Texture a f ↦ λ _ _ _. refl | Storage n ↦ λ _ _ _. refl ] };

    ghost new_edge = { elim [
      | Frame a b ↦ λ slot note target h. new_edge_of a b target slot
      | Texture a f ↦ λ slot note target h. refl
      | Storage n ↦ λ slot note target h. no_slot h
    ] };

    ghost other_edges = { elim [
      | Frame a b ↦ λ slot note target other h k ne. other_edges_of a b target slot other h k ne
      | Texture a f ↦ λ slot note target other h k ne. absurd (no_other slot other h k ne)
      | Storage n ↦ λ slot note target other h k ne. refl
    ] };

    ghost is_edge = { elim [
      | Frame a b ↦ λ slot n. is_edge_of a b slot n
      | Texture a f ↦ λ slot n. one_edge a n
      | Storage m ↦ λ slot n. no_edge n
    ] };

    ghost moves = { elim [
      | Frame a b ↦ λ slot note target n h. moves_of a b target slot n
      | Texture a f ↦ λ slot note target n h. one_moves a target n
      | Storage m ↦ λ slot note target n h. no_slot h
    ] };

    ghost kinds = { elim [ Frame a b ↦ few_kinds.0 | Texture a f ↦ few_kinds.1.0 | Storage n ↦ few_kinds.1.1 ] };

    ghost marks = { elim [ Frame a b ↦ few_marks.0 | Texture a f ↦ few_marks.1 | Storage n ↦ few_marks.1 ] };

    ghost same_size = { elim [ Frame a b ↦ λ _ _ _. refl | Texture a f ↦ λ _ _ _. refl | Storage n ↦ λ _ _ _. refl ] };

    ghost same_kind = { elim [ Frame a b ↦ λ _ _ _. refl | Texture a f ↦ λ _ _ _. refl | Storage n ↦ λ _ _ _. refl ] };

    ghost same_mark = { elim [ Frame a b ↦ λ _ _ _. refl | Texture a f ↦ λ _ _ _. refl | Storage n ↦ λ _ _ _. refl ] };

    fn size(&self) -> u64 {
        match self {
            Piece::Frame(_, _) | Piece::Texture(_, _) => 0,
            Piece::Storage(bytes) => u64::from(*bytes),
        }
    }

    fn kind(&self) -> u32 {
        match self {
            Piece::Frame(_, _) => 0,
            Piece::Texture(_, _) => 1,
            Piece::Storage(_) => 2,
        }
    }

    fn mark(&self) -> u32 {
        match self {
            Piece::Frame(_, _) => 0,
            Piece::Texture(_, _) | Piece::Storage(_) => 64,
        }
    }

    fn rank(&self) -> u32 {
        match self {
            Piece::Frame(_, _) => 2,
            Piece::Texture(_, _) => 1,
            Piece::Storage(_) => 0,
        }
    }

    fn edge_count(&self) -> u32 {
        match self {
            Piece::Frame(first, second) => {
                u32::from(first.is_some()) + u32::from(second.is_some())
            }
            Piece::Texture(storage, _) => u32::from(storage.is_some()),
            Piece::Storage(_) => 0,
        }
    }

    fn edge(&self, k: u32) -> u64 {
        match self {
            Piece::Frame(Some(first), Some(second)) => { if k == 0 { *first } else { *second } }
            Piece::Frame(Some(only), None)
            | Piece::Frame(None, Some(only))
            | Piece::Texture(Some(only), _) => *only,
            Piece::Frame(None, None) | Piece::Texture(None, _) | Piece::Storage(_) => {
                unreachable!()
            }
        }
    }

    fn set_edge(
        &mut self,
        slot: u64,
        _note: u64,
        target: Option<u64>,
    ) -> Result<Option<u64>, NoMemory> {
        match self {
            Piece::Frame(first, second) => {
                if slot == 0 {
                    Ok(mem::replace(first, target))
                } else {
                    Ok(mem::replace(second, target))
                }
            }
            Piece::Texture(storage, fullness) => {
                if matches!(fullness, Fullness::Full) && target.is_some() {
                    return Err(NoMemory);
                }
                Ok(mem::replace(storage, target))
            }
            Piece::Storage(_) => unreachable!(),
        }
    }
}
