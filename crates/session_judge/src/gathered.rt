//! The rules of a sort, gathered model by model.

ghost use Rattle.std.specs.Prelude.{◌≡◌, ◌++◌, [], Some, None, IfOk};
ghost use Rattle.session_judge.specs.FirstRefused.{first_of_both, first_of_two, in_front_of, refusal_in, unless_section_refused};

use aerie_base::{List, OutOfMemory};
use refusal_text::Refusal;
use std::alloc::Global;

/// A refusal, and the number of the first token of its section.
pub(crate) type SectionRefusal = (usize, Refusal);

/// The rules of some models, and what stands first in the text of what is refused of them.
#[derive(Drop)]
pub(crate) struct Gathered<A> {
    pub(crate) rules: List<A>,
    pub(crate) refused: Option<SectionRefusal>,
}

/// The refusal whose section begins first.
fn first_of_two(one: SectionRefusal, other: SectionRefusal) -> SectionRefusal
    ensures { result ≡ first_of_two one other }
{
    if other.0 < one.0 { other } else { one }
}

/// The refusal of two whose section begins first, where there is the one.
fn first_with(found: Option<SectionRefusal>, refused: SectionRefusal) -> SectionRefusal
    ensures { first_of_both found (Some refused) ≡ Some result }
{
    match found {
        None => refused,
        Some(one) => first_of_two(one, refused),
    }
}

impl<A: Drop> Gathered<A> {
    /// Nothing yet.
    pub(crate) fn new(alloc: Global) -> Gathered<A>
        ensures rules { result.rules ≡ [] }
        ensures refused { result.refused ≡ None }
    {
        Gathered {
            rules: List::new(alloc),
            refused: None,
        }
    }

    /// Takes the rules of one model more, or why its section, which begins with this token, is refused.
    pub(crate) fn take(
        self,
        begin: usize,
        answer: Result<A, Refusal>,
    ) -> Result<Gathered<A>, OutOfMemory>
        ensures rules { IfOk result (λ more. more.rules ≡ self.rules ++ in_front_of answer []) }
        ensures refused { IfOk result (λ more. more.refused ≡ first_of_both self.refused (refusal_in begin answer)) }
    {
        let Gathered { mut rules, refused } = self;
        match answer {
            Ok(more) => {
                rules.push(more)?;
                Ok(Gathered { rules, refused })
            }
            Err(refusal) => {
                let refused = Some(first_with(refused, (begin, refusal)));
                Ok(Gathered { rules, refused })
            }
        }
    }

    /// The rules of all, or what stands first in the text of what is refused.
    pub(crate) fn answer(self) -> Result<List<A>, Refusal>
        ensures { result ≡ unless_section_refused self.refused self.rules }
    {
        let Gathered { rules, refused } = self;
        match refused {
            None => Ok(rules),
            Some(refused) => Err(refused.1),
        }
    }
}
