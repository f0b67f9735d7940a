//! Reading short weights that refute a run where they stand among bytes, behind a blank: the front of bytes that `read_why` reads word by word.
//! Each list tells how many entries it has, so no end is looked for; weights that are not short `read_why` reads.
ghost use Rattle.std.specs.Prelude.{◌≡◌, ◌≤◌, ◌<◌, ◌+◌, IfSome, length};
ghost use Rattle.text_terms.specs.Forms.{natural, axis_letter, counted};
ghost use Rattle.text_terms.specs.Weights.{step, share, step_share, why};
ghost use Rattle.shape_refute.specs.Shown.{share_of, shift_of, step_share_of};
ghost use Rattle.shape_refute.specs.Weights.{refutation_of};
ghost use Rattle.report_text.specs.Front.{StandsAt};

use crate::front::{Field, short_count};
use shape_refute::{Refutation, Share, Shares, Step, StepShare, StepShares};

// A weight and what it weighs are read where so many bytes follow.
const ROOM: usize = 15;

// Reads a blank and how many entries a list of weights has, which is 4 at most.
#[inline(always)]
fn short_few(bytes: &[u8], at: usize) -> Option<Field<u32>>
    requires { at ≤ length bytes.now }
    ensures stands { IfSome result (λ f. StandsAt bytes.now at f.end 2 ((natural 5).words f.value)) }
    ensures few { IfSome result (λ f. f.value ≤ 4) }
    ensures inside { IfSome result (λ f. f.end ≤ length bytes.now) }
{
    if bytes.len() < at + 2 || bytes[at] != b' ' {
        return None;
    }
    let digit = bytes[at + 1];
    if digit < b'0' || digit > b'4' {
        return None;
    }
    Some(Field {
        value: u32::from(digit - b'0'),
        end: at + 2,
    })
}

// Reads a short weight and a short place.
#[inline(always)]
fn short_share(bytes: &[u8], at: usize) -> Option<Field<Share>>
    requires { at ≤ length bytes.now }
    ensures stands { IfSome result
        (λ f. StandsAt bytes.now at f.end 14 (share.words (share_of f.value))) }
    ensures fits { IfSome result (λ f. share.InRange (share_of f.value)) }
    ensures inside { IfSome result (λ f. f.end ≤ length bytes.now) }
{
    if bytes.len() < at + ROOM {
        return None;
    }
    let weight = short_count(bytes, at)?;
    let place = short_count(bytes, weight.end)?;
    Some(Field {
        value: Share {
            weight: u64::from(weight.value),
            place: place.value,
        },
        end: place.end,
    })
}

// Reads a counted list of short shares.
#[inline(always)]
fn short_shares(bytes: &[u8], at: usize) -> Option<Field<Shares>>
    requires { at ≤ length bytes.now }
    ensures stands { IfSome result
        (λ f. StandsAt bytes.now at f.end 58 ((counted 4 share).words f.value)) }
    ensures fits { IfSome result (λ f. (counted 4 share).InRange f.value) }
    ensures inside { IfSome result (λ f. f.end ≤ length bytes.now) }
{
    let few = short_few(bytes, at)?;
    let len = few.value;
    let mut end = few.end;
    let mut shares = Shares::new();
    for _ in 0..len {
        let share = short_share(bytes, end)?;
        shares.push(share.value);
        end = share.end;
    }
    Some(Field { value: shares, end })
}

// The axis of a space of `dim` axes that a letter names.
#[inline(always)]
fn axis_of(letter: u8, dim: u8) -> Option<u8>
    ensures { IfSome result (λ t. (axis_letter t ≡ letter) × (t < dim)) }
{
    if letter < b'x' || letter - b'x' >= dim {
        None
    } else {
        Some(letter - b'x')
    }
}

// Reads a blank and the word of a step of a space of `dim` axes.
#[inline(always)]
fn short_step(bytes: &[u8], at: usize, dim: u8) -> Option<Field<Step>>
    requires { at + 5 ≤ length bytes.now }
    ensures stands { IfSome result
        (λ f. StandsAt bytes.now at f.end 5 ((step dim).words (shift_of f.value))) }
    ensures fits { IfSome result (λ f. (step dim).InRange (shift_of f.value)) }
{
    if bytes[at] != b' ' || bytes[at + 1] != b'u' || bytes[at + 2] != b'p' {
        return None;
    }
    match bytes[at + 3] {
        b'+' => {
            let axis = axis_of(bytes[at + 4], dim)?;
            Some(Field {
                value: Step::Plus(axis),
                end: at + 5,
            })
        }
        b'-' => {
            let axis = axis_of(bytes[at + 4], dim)?;
            Some(Field {
                value: Step::Minus(axis),
                end: at + 5,
            })
        }
        _ => Some(Field {
            value: Step::Up,
            end: at + 3,
        }),
    }
}

// Reads a short weight and a step.
#[inline(always)]
fn short_step_share(bytes: &[u8], at: usize, dim: u8) -> Option<Field<StepShare>>
    requires { at ≤ length bytes.now }
    ensures stands { IfSome result
        (λ f. StandsAt bytes.now at f.end 12 ((step_share dim).words (step_share_of f.value))) }
    ensures fits { IfSome result (λ f. (step_share dim).InRange (step_share_of f.value)) }
    ensures inside { IfSome result (λ f. f.end ≤ length bytes.now) }
{
    if bytes.len() < at + ROOM {
        return None;
    }
    let weight = short_count(bytes, at)?;
    let step = short_step(bytes, weight.end, dim)?;
    Some(Field {
        value: StepShare {
            weight: u64::from(weight.value),
            step: step.value,
        },
        end: step.end,
    })
}

// Reads a counted list of short shares of steps.
#[inline(always)]
fn short_step_shares(bytes: &[u8], at: usize, dim: u8) -> Option<Field<StepShares>>
    requires { at ≤ length bytes.now }
    ensures stands { IfSome result
        (λ f. StandsAt bytes.now at f.end 50 ((counted 4 (step_share dim)).words f.value)) }
    ensures fits { IfSome result (λ f. (counted 4 (step_share dim)).InRange f.value) }
    ensures inside { IfSome result (λ f. f.end ≤ length bytes.now) }
{
    let few = short_few(bytes, at)?;
    let len = few.value;
    let mut end = few.end;
    let mut shares = StepShares::new();
    for _ in 0..len {
        let share = short_step_share(bytes, end, dim)?;
        shares.push(share.value);
        end = share.end;
    }
    Some(Field { value: shares, end })
}

/// Reads the words of short weights in a space of `dim` axes at a place, as far as bytes follow.
#[inline(always)]
pub fn short_why(bytes: &[u8], at: usize, dim: u8) -> Option<Field<Refutation>>
    requires { at ≤ length bytes.now }
    ensures stands { IfSome result
        (λ f. StandsAt bytes.now at f.end 166 ((why dim).words (refutation_of f.value))) }
    ensures fits { IfSome result (λ f. (why dim).InRange (refutation_of f.value)) }
    ensures inside { IfSome result (λ f. f.end ≤ length bytes.now) }
{
    let low = short_shares(bytes, at)?;
    let high = short_shares(bytes, low.end)?;
    let steps = short_step_shares(bytes, high.end, dim)?;
    Some(Field {
        value: Refutation {
            low: low.value,
            high: high.value,
            steps: steps.value,
        },
        end: steps.end,
    })
}
