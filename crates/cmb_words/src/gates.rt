//! Gates over words: the gate functions of the model, at each place.

ghost use Rattle.std.specs.Prelude.{◌≡◌, ℕ, ◌<◌, List, [], ◌∷◌, ◌++◌, if◌then◌else◌};
ghost use Rattle.cmb_wave.specs.declared.level.Level.{Level};
ghost use Rattle.cmb_design_model.specs.Gate.{gate, conjunction, disjunction, parity, inverse_of};
ghost use Rattle.cmb_wave.specs.declared.level.Level.TheVariants.{One};
ghost use Rattle.cmb_words.specs.Bits.{is_set_at, level_in};
ghost use Rattle.cmb_words.specs.Joint.{joint};
ghost use Rattle.cmb_words.specs.Inner.Masked.{inverse_if, inverts_operands, ignores_second, is_parity, inverts_result};
ghost use Rattle.cmb_words.specs.Word.{level_at_place};

use crate::word::Word;
use cmb_netlist::Kind;

// AND of the levels at each place.
#[inline]
fn both(a: Word, b: Word) -> Word
    ensures { (i : ℕ) → i < 64 → level_at_place result i ≡ conjunction (level_at_place a i ∷ level_at_place b i ∷ []) }
{
    let ones = a.ones & b.ones;
    Word {
        ones,
        unknown: ((a.ones | a.unknown) & (b.ones | b.unknown)) ^ ones,
    }
}

// OR of the levels at each place.
#[inline]
fn either(a: Word, b: Word) -> Word
    ensures { (i : ℕ) → i < 64 → level_at_place result i ≡ disjunction (level_at_place a i ∷ level_at_place b i ∷ []) }
{
    let ones = a.ones | b.ones;
    Word {
        ones,
        unknown: (ones | a.unknown | b.unknown) ^ ones,
    }
}

// XOR of the levels at each place.
#[inline]
fn differing(a: Word, b: Word) -> Word
    ensures { (i : ℕ) → i < 64 → level_at_place result i ≡ parity (level_at_place a i ∷ level_at_place b i ∷ []) }
{
    let unknown = a.unknown | b.unknown;
    Word {
        ones: ((a.ones ^ b.ones) | unknown) ^ unknown,
        unknown,
    }
}

// NOT of the level at each place.
#[inline]
fn inverted(a: Word) -> Word
    ensures { (i : ℕ) → i < 64 → level_at_place result i ≡ inverse_of (level_at_place a i) }
{
    Word {
        ones: (a.ones | a.unknown) ^ u64::MAX,
        unknown: a.unknown,
    }
}

/// What a gate of the kind makes of its operands, up to this one, before it inverts.
///
/// A gate with any number of operands begins with the word of the first (which is what it makes of one operand), joins
/// the words of the others one after the other, and is then `completed`.
#[inline]
pub fn join(kind: Kind, joined: Word, operand: Word) -> Word
    ensures { (i : ℕ) → i < 64 → (first : Level) (others : List Level)
        → level_at_place joined i ≡ joint kind (first ∷ others)
        → level_at_place result i ≡ joint kind ((first ∷ others) ++ level_at_place operand i ∷ []) }
{
    match kind {
        Kind::And | Kind::Nand => both(joined, operand),
        Kind::Or | Kind::Nor => either(joined, operand),
        Kind::Xor | Kind::Xnor => differing(joined, operand),
        Kind::Not | Kind::Buff => joined,
    }
}

/// What a gate gives of which all operands are joined.
#[inline]
pub fn completed(kind: Kind, joined: Word) -> Word
    ensures { (i : ℕ) → i < 64 → (levels : List Level)
        → level_at_place joined i ≡ joint kind levels
        → level_at_place result i ≡ gate kind levels }
{
    match kind {
        Kind::Nand | Kind::Nor | Kind::Xnor | Kind::Not => inverted(joined),
        Kind::And | Kind::Or | Kind::Xor | Kind::Buff => joined,
    }
}

/// What a gate with one operand gives, at each place.
#[inline]
pub fn gate1(kind: Kind, operand: Word) -> Word
    ensures { (i : ℕ) → i < 64 → level_at_place result i ≡ gate kind (level_at_place operand i ∷ []) }
{
    completed(kind, operand)
}

// The levels of a word, inverted where a mask is set.
#[inline]
fn inverted_where(a: Word, mask: u64) -> Word
    ensures { (i : ℕ) → i < 64 → level_at_place result i ≡ inverse_if (is_set_at mask i) (level_at_place a i) }
{
    Word {
        ones: (a.ones ^ mask) & (a.unknown ^ u64::MAX),
        unknown: a.unknown,
    }
}

// The levels of a word, and 1 where a mask is set.
#[inline]
fn ones_where(a: Word, mask: u64) -> Word
    ensures { (i : ℕ) → i < 64 → level_at_place result i ≡ (if is_set_at mask i then One else level_at_place a i) }
{
    Word {
        ones: a.ones | mask,
        unknown: a.unknown & (mask ^ u64::MAX),
    }
}

// The levels of one word, and those of another where a mask is set.
#[inline]
fn chosen(a: Word, b: Word, mask: u64) -> Word
    ensures { (i : ℕ) → i < 64
        → level_at_place result i ≡ (if is_set_at mask i then level_at_place b i else level_at_place a i) }
{
    Word {
        ones: a.ones ^ ((a.ones ^ b.ones) & mask),
        unknown: a.unknown ^ ((a.unknown ^ b.unknown) & mask),
    }
}

// The masks, each of all places or of none, by which a gate of a kind is made without a branch.
struct GateMasks {
    operands: u64,
    second: u64,
    parity: u64,
    inverse: u64,
}

#[inline]
#[tactic(auto, using(crate::proofs::LevelFacts::all_set, crate::proofs::LevelFacts::none_set))]
fn masks_of(kind: Kind) -> GateMasks
    ensures operands { (i : ℕ) → i < 64 → is_set_at result.operands i ≡ inverts_operands kind }
    ensures second { (i : ℕ) → i < 64 → is_set_at result.second i ≡ ignores_second kind }
    ensures parity { (i : ℕ) → i < 64 → is_set_at result.parity i ≡ is_parity kind }
    ensures inverse { (i : ℕ) → i < 64 → is_set_at result.inverse i ≡ inverts_result kind }
{
    let all = u64::MAX;
    let (operands, second, parity, inverse) = match kind {
        Kind::And => (0, 0, 0, 0),
        Kind::Nand => (0, 0, 0, all),
        Kind::Or => (all, 0, 0, all),
        Kind::Nor => (all, 0, 0, 0),
        Kind::Xor => (0, 0, all, 0),
        Kind::Xnor => (0, 0, all, all),
        Kind::Not => (0, all, 0, all),
        Kind::Buff => (0, all, 0, 0),
    };
    GateMasks {
        operands,
        second,
        parity,
        inverse,
    }
}

// What a gate with two operands gives, at each place.
//
// There is no branch on the kind in it, since a processor can't foresee the kinds of gates that follow one another.
#[inline]
fn gate2_any(kind: Kind, a: Word, b: Word) -> Word
    ensures { (i : ℕ) → i < 64 → level_at_place result i ≡ gate kind (level_at_place a i ∷ level_at_place b i ∷ []) }
{
    let GateMasks {
        operands,
        second,
        parity,
        inverse,
    } = masks_of(kind);
    let first = inverted_where(a, operands);
    let other = ones_where(inverted_where(b, operands), second);
    let joined = chosen(both(first, other), differing(a, b), parity);
    inverted_where(joined, inverse)
}

/// As `join`, where no level is x: of the operands and of the result, the places that are 1.
#[inline]
pub fn join_known(kind: Kind, joined: u64, operand: u64) -> u64
    ensures { (i : ℕ) → i < 64 → (first : Level) (others : List Level)
        → level_in joined 0 i ≡ joint kind (first ∷ others)
        → level_in result 0 i ≡ joint kind ((first ∷ others) ++ level_in operand 0 i ∷ []) }
{
    match kind {
        Kind::And | Kind::Nand => joined & operand,
        Kind::Or | Kind::Nor => joined | operand,
        Kind::Xor | Kind::Xnor => joined ^ operand,
        Kind::Not | Kind::Buff => joined,
    }
}

/// As `completed`, where no level is x: of what is joined and of the result, the places that are 1.
#[inline]
#[tactic(auto, using(crate::proofs::LevelFacts::not_known))]
pub fn completed_known(kind: Kind, joined: u64) -> u64
    ensures { (i : ℕ) → i < 64 → (levels : List Level)
        → level_in joined 0 i ≡ joint kind levels
        → level_in result 0 i ≡ gate kind levels }
{
    match kind {
        Kind::Nand | Kind::Nor | Kind::Xnor | Kind::Not => joined ^ u64::MAX,
        Kind::And | Kind::Or | Kind::Xor | Kind::Buff => joined,
    }
}

/// What a gate with two operands gives that are x nowhere: of them and of the result, the places that are 1.
#[inline]
pub fn gate2_known(kind: Kind, a: u64, b: u64) -> u64
    ensures { (i : ℕ) → i < 64 → level_in result 0 i ≡ gate kind (level_in a 0 i ∷ level_in b 0 i ∷ []) }
{
    let first = Word {
        ones: a,
        unknown: 0,
    };
    let second = Word {
        ones: b,
        unknown: 0,
    };
    gate2_any(kind, first, second).ones
}

/// What a gate with two operands gives, at each place.
///
/// Mostly no operand is x anywhere, and then half of the work is spared.
#[inline]
pub fn gate2(kind: Kind, a: Word, b: Word) -> Word
    ensures { (i : ℕ) → i < 64 → level_at_place result i ≡ gate kind (level_at_place a i ∷ level_at_place b i ∷ []) }
{
    if a.unknown == 0 && b.unknown == 0 {
        Word {
            ones: gate2_known(kind, a.ones, b.ones),
            unknown: 0,
        }
    } else {
        gate2_any(kind, a, b)
    }
}
