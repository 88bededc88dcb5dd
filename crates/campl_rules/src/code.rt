//! Code that keeps the rules.
ghost use Rattle.std.specs.Prelude.{◌≡◌, None, MatchResult};
ghost use Rattle.campl_code.specs.Rules as rule;
ghost use Rattle.campl_instructions.specs.View.{view_code};
ghost use Rattle.campl_rules.specs.Faults.{Tells};

use crate::rules::{CodeFault, first_fault};
use campl_instructions::RawCode;
use std::alloc::Global;

/// Code no instruction of which breaks a rule.
#[derive(Drop)]
pub struct Code {
    raw: RawCode,
    ghost valid: { rule.first_fault (view_code raw) ≡ None },
}

impl Code {
    /// The code, where no instruction of it breaks a rule. The error tells the first one that does, or that memory is out, and
    /// drops the code.
    pub fn validate(alloc: Global, raw: RawCode) -> Result<Code, CodeFault>
        ensures { MatchResult result (λ code. code.raw ≡ raw) (Tells (rule.first_fault (view_code raw))) }
    {
        match first_fault(alloc, &raw) {
            Err(fault) => Err(fault),
            Ok(()) => Ok(Code { raw }),
        }
    }

    /// Code of which it is proved that no instruction breaks a rule.
    pub fn assemble(raw: RawCode) -> Code
        requires { rule.first_fault (view_code raw) ≡ None }
        ensures { result.raw ≡ raw }
    {
        Code { raw }
    }

    /// The blocks and decisions, for a program of the evaluator.
    pub fn into_raw(self) -> RawCode
        ensures same { result ≡ self.raw }
        ensures valid { rule.first_fault (view_code result) ≡ None }
    {
        self.raw
    }

    /// The blocks and decisions.
    pub fn raw(&self) -> &RawCode
        ensures same { result.now ≡ self.now.raw }
        ensures valid { rule.first_fault (view_code result.now) ≡ None }
    {
        &self.raw
    }
}
