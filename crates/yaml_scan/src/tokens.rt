//! What the scanner gives: the tokens of a text, one after another.

ghost use Rattle.std.specs.Prelude.{◌≡◌, ◌-◌, IfOk, None, true};
ghost use Rattle.std.specs.Option.{ForSome};
ghost use Rattle.std.proofs.Props.{props};
ghost use Rattle.yaml_base.specs.declared.fault.FaultKind.TheVariants as kind;

use crate::scanner::{More, Scanner};
use crate::{Fault, Placed, Stop};
use std::alloc::{AllocError, Global};
use yaml_base::FaultKind;

/// The tokens of a text, amid the text. Only those that may still become keys are kept.
#[derive(Drop)]
pub struct Tokens<'a> {
    scanner: Scanner<'a>,
    // How many of the tokens that wait can't change any more.
    ready: usize,
    // What is wrong with the text behind them.
    fault: Option<Fault>,
    ghost scanners: { ForSome fault (λ f. f.kind ≡ kind.Scanner) } by { Prim.hlevel props },
}

impl<'a> Tokens<'a> {
    // The tokens of a text from where the scanner stands on, of which none is scanned yet.
    pub(crate) fn new(scanner: Scanner<'a>) -> Tokens<'a> {
        Tokens {
            scanner,
            ready: 0,
            fault: None,
        }
    }

    /// Scans the next token, with those that begin or end a collection there, finds how many tokens are ready, those
    /// that no `:` further on can show to be keys, and tells whether the text goes on: not behind its end, nor behind
    /// its first fault, which hides the tokens that it came too late to tell keys or none. To be called once all that
    /// were ready are taken, as long as the text goes on.
    ///
    /// A text has at most as many steps as bytes, and one more. The only error is want of memory.
    pub fn advance(&mut self) -> Result<bool, AllocError>
        ensures { IfOk result (λ goes_on. goes_on ≡ true → self.new.fault ≡ self.old.fault) }
    {
        match self.scanner.advance(&mut self.ready) {
            Ok(more) => Ok(more == More::Yes),
            Err(Stop) => match self.scanner.found() {
                Some(finding) => {
                    self.fault = Some(finding.found_by(FaultKind::Scanner));
                    Ok(false)
                }
                None => Err(AllocError),
            },
        }
    }

    /// How many tokens are ready.
    #[inline(always)]
    pub fn ready(&self) -> usize
        ensures { result ≡ self.now.ready }
    {
        self.ready
    }

    /// The next token that is ready, if one is.
    #[inline(always)]
    pub fn next(&mut self) -> Option<Placed>
        ensures fewer { self.new.ready ≡ self.old.ready - 1 }
        ensures none { self.old.ready ≡ 0 → result ≡ None }
        ensures fault { self.new.fault ≡ self.old.fault }
    {
        if self.ready == 0 {
            return None;
        }
        self.ready -= 1;
        self.scanner.pop()
    }

    /// What is wrong with the text, behind all tokens, if that was found.
    pub fn fault(&self) -> Option<Fault>
        ensures found { result ≡ self.now.fault }
        ensures scanners { ForSome result (λ f. f.kind ≡ kind.Scanner) }
    {
        self.fault
    }
}
