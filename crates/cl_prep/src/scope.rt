//! The names in force and the open conditionals.
ghost use Rattle.std.specs.Prelude.{◌≡◌, ◌+◌, ◌<◌, ◌∷◌, ◌^◌, ◌++◌, [], OnOk};
ghost use Rattle.std.specs.Prelude.{IfErr, IfSome, IfNone, option_to_list};
ghost use Rattle.cl_prep.specs.Directives as spec;
ghost use Rattle.cl_prep.specs.Scopes.{idle_of, Follows, IsInnermost};
ghost use Rattle.cl_prep.specs.Table.{names_of};

use crate::directive::{Conditional, Directive, directive_of, has_parameters, name_in};
use crate::names::{Names, copies, find, remove, same_words, set};
use crate::prep::PrepError;
use cl_token::Token;
use std::alloc::Global;
use std::collections::VecDeque;
use wg_num::Memory;

/// The names in force and the open conditionals, of which the innermost comes first.
#[derive(Drop)]
pub(crate) struct Scope {
    pub(crate) names: Names,
    pub(crate) conditionals: VecDeque<Conditional>,
    /// How many of the conditionals are not taken.
    idle: usize,
    ghost counted: { idle ≡ idle_of conditionals.items },
}

impl Scope {
    ghost use Rattle.cl_prep.specs.ScopeViews.{scope_of};

    /// A scope with these names and no conditional.
    pub(crate) fn new(alloc: Global, names: Names) -> Scope
        ensures { scope_of result ≡ record { names = names_of names; conditionals = [] } }
    {
        Scope {
            names,
            conditionals: VecDeque::new(alloc),
            idle: 0,
        }
    }

    /// Whether the text is active.
    pub(crate) fn is_active(&self) -> bool
        ensures { result ≡ spec.is_active (scope_of self.now).conditionals }
    {
        self.idle == 0
    }

    /// The number of the `#` that opened the innermost conditional.
    pub(crate) fn innermost(&self) -> Option<u32>
        ensures none { IfNone result ((scope_of self.now).conditionals ≡ []) }
        ensures some { IfSome result (IsInnermost (scope_of self.now).conditionals) }
    {
        self.conditionals
            .front()
            .map(|conditional| conditional.token)
    }

    fn open(&mut self, conditional: Conditional) -> Result<(), PrepError>
        ensures ok { OnOk result (scope_of self.new ≡ record {
          names = (scope_of self.old).names;
          conditionals = conditional ∷ (scope_of self.old).conditionals;
        }) }
        ensures err { IfErr result (λ e. e ≡ PrepError.Memory) }
    {
        if self.conditionals.push_front(conditional).is_err() {
            return Err(PrepError::Memory);
        }
        if !conditional.taken {
            self.idle += 1;
        }
        Ok(())
    }

    fn close(&mut self) -> Option<Conditional>
        ensures conditionals { (scope_of self.old).conditionals ≡ option_to_list result ++
            (scope_of self.new).conditionals }
        ensures names { (scope_of self.new).names ≡ (scope_of self.old).names }
        ensures none { IfNone result ((scope_of self.old).conditionals ≡ []) }
    {
        let conditional = self.conditionals.pop_front()?;
        if !conditional.taken {
            self.idle -= 1;
        }
        Some(conditional)
    }

    fn define(&mut self, alloc: Global, at: u32, args: &[Token]) -> Result<(), PrepError>
        requires { at + 2 < 2 ^ 32 }
        ensures { Follows (spec.define_in at (scope_of self.old) args.now (spec.name_in args.now)) result
            (scope_of self.new) }
    {
        let Some(name) = name_in(args) else {
            return Err(PrepError::NoName { token: at });
        };
        let body = args.get(1..).unwrap_or(&[]);
        if has_parameters(name, body) {
            return Err(PrepError::BadDirective { token: at });
        }
        if let Some(old) = find(&self.names, name.word.bytes()) {
            if same_words(old, body) {
                return Ok(());
            }
            return Err(PrepError::Redefined { token: at + 2 });
        }
        set(
            alloc,
            &mut self.names,
            name.word.bytes(),
            copies(alloc, body)?,
        )?;
        Ok(())
    }

    fn undef(&mut self, at: u32, args: &[Token]) -> Result<(), PrepError>
        ensures { Follows (spec.undef_in at (scope_of self.old) (spec.name_in args.now)) result (scope_of self.new) }
    {
        let Some(name) = name_in(args) else {
            return Err(PrepError::NoName { token: at });
        };
        remove(&mut self.names, name.word.bytes());
        Ok(())
    }

    fn open_if(&mut self, wanted: bool, at: u32, args: &[Token]) -> Result<(), PrepError>
        ensures { Follows (spec.open_in wanted at (scope_of self.old) (spec.name_in args.now)) result
            (scope_of self.new) }
    {
        let Some(name) = name_in(args) else {
            return Err(PrepError::NoName { token: at });
        };
        let known = find(&self.names, name.word.bytes()).is_some();
        self.open(Conditional {
            token: at,
            taken: known == wanted,
            otherwise: false,
        })
    }

    fn otherwise(&mut self, at: u32) -> Result<(), PrepError>
        ensures { Follows (spec.else_in at (scope_of self.old) (scope_of self.old).conditionals) result
            (scope_of self.new) }
    {
        match self.close() {
            Some(conditional) if !conditional.otherwise => self.open(Conditional {
                token: conditional.token,
                taken: !conditional.taken,
                otherwise: true,
            }),
            _ => Err(PrepError::NoOpening { token: at }),
        }
    }

    fn endif(&mut self, at: u32) -> Result<(), PrepError>
        ensures { Follows (spec.endif_in at (scope_of self.old) (scope_of self.old).conditionals) result
            (scope_of self.new) }
    {
        match self.close() {
            Some(_) => Ok(()),
            None => Err(PrepError::NoOpening { token: at }),
        }
    }

    /// Does what a line behind a `#` says, where `at` is the number of the `#`.
    #[tactic(auto, unfolding(crate::specs::Directives::obeyed))]
    pub(crate) fn obey(&mut self, alloc: Global, at: u32, line: &[Token]) -> Result<(), PrepError>
        requires { at + 2 < 2 ^ 32 }
        ensures { Follows (spec.effect at (scope_of self.old) line.now) result (scope_of self.new) }
    {
        let Some((word, args)) = line.split_first() else {
            return Ok(());
        };
        let active = self.is_active();
        match directive_of(word) {
            Directive::Define if active => self.define(alloc, at, args),
            Directive::Undef if active => self.undef(at, args),
            Directive::Ifdef => self.open_if(true, at, args),
            Directive::Ifndef => self.open_if(false, at, args),
            Directive::Else => self.otherwise(at),
            Directive::Endif => self.endif(at),
            Directive::If => Err(PrepError::BadDirective { token: at }),
            Directive::Other if active => Err(PrepError::BadDirective { token: at }),
            Directive::Define | Directive::Undef | Directive::Pragma | Directive::Other => Ok(()),
        }
    }
}
