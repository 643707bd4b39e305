// The numbers of a resource, and the site's policy, which reads them.
ghost use Rattle.std.specs.Prelude.{◌≡◌};
ghost use Rattle.policies.specs.Orders.{discipline_number, discipline_of, preemption_number, preemption_of, numbered, site};
ghost use Rattle.policies.specs.Lawfuls.{order_of_lawful, layered_lawful};

use crate::orders::{Discipline, NonPreemptive};
use crate::policy::{Claim, Policy};
use std::error::Error;
use std::fmt;

// Whether a ready task may interrupt one that has begun to run.
#[derive(Clone, Copy, Debug, PartialEq, Eq)]
pub enum Preemption {
    NotPreemptive,
    Preemptive,
}

// A number that no variant has.
#[derive(Clone, Copy, Debug, PartialEq, Eq)]
pub struct UnknownNumber(pub u32);

impl fmt::Display for UnknownNumber {
    fn fmt<W: fmt::Write>(&self, f: &mut fmt::Formatter<W>) -> fmt::Result {
        write!(f, "no policy or preempt has number {}", self.0)
    }
}

impl Error for UnknownNumber {}

// The policy number, which is the place of the variant, from 0.
impl From<Discipline> for u32 {
    ghost from_gives = { λ discipline number. number ≡ discipline_number discipline };

    fn from(discipline: Discipline) -> u32 {
        discipline as u32
    }
}

impl TryFrom<u32> for Discipline {
    type Error = UnknownNumber;

    ghost try_from_gives = { λ number result. result ≡ discipline_of number };

    fn try_from(number: u32) -> Result<Discipline, UnknownNumber> {
        match number {
            0 => Ok(Discipline::Fifo),
            1 => Ok(Discipline::FixedPriority),
            2 => Ok(Discipline::EarliestDeadline),
            _ => Err(UnknownNumber(number)),
        }
    }
}

// The preempt number, which is the place of the variant, from 0.
impl From<Preemption> for u32 {
    ghost from_gives = { λ preemption number. number ≡ preemption_number preemption };

    fn from(preemption: Preemption) -> u32 {
        preemption as u32
    }
}

impl TryFrom<u32> for Preemption {
    type Error = UnknownNumber;

    ghost try_from_gives = { λ number result. result ≡ preemption_of number };

    fn try_from(number: u32) -> Result<Preemption, UnknownNumber> {
        match number {
            0 => Ok(Preemption::NotPreemptive),
            1 => Ok(Preemption::Preemptive),
            _ => Err(UnknownNumber(number)),
        }
    }
}

// The discipline that the policy number names; an unknown number is read as FIFO's.
#[derive(Clone, Copy, Debug, PartialEq, Eq)]
pub struct Numbered;

impl Policy for Numbered {
    ghost order = { λ _ policy _. numbered policy };

    ghost lawful = { λ _ _ _. order_of_lawful _ };

    fn before(&self, policy: u32, preempt: u32, a: &Claim, b: &Claim) -> bool {
        let discipline = Discipline::try_from(policy).unwrap_or(Discipline::Fifo);
        discipline.before(policy, preempt, a, b)
    }
}

// The policy that both numbers name; an unknown preempt number is read as not preemptive.
#[derive(Clone, Copy, Debug, PartialEq, Eq)]
pub struct SitePolicy;

impl Policy for SitePolicy {
    ghost order = { λ _ policy preempt. site policy preempt };

    ghost lawful = { λ _ _ _. layered_lawful _ _ (order_of_lawful _) };

    fn before(&self, policy: u32, preempt: u32, a: &Claim, b: &Claim) -> bool {
        match Preemption::try_from(preempt).unwrap_or(Preemption::NotPreemptive) {
            Preemption::Preemptive => Numbered.before(policy, preempt, a, b),
            Preemption::NotPreemptive => {
                NonPreemptive { below: Numbered }.before(policy, preempt, a, b)
            }
        }
    }
}
