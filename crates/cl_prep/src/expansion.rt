//! The expansion of tokens.
ghost use Rattle.std.specs.Prelude.{◌≡◌, ◌+◌, ◌<◌, ◌≤◌, ◌^◌, [], ℕ, List, length, All};
ghost use Rattle.std.specs.Prelude.{IfOk, IfErr};
ghost use Rattle.cl_token.specs.declared.token.Token.{Token as AnyToken};
ghost use Rattle.cl_prep.specs.declared.prep.PrepError.{PrepError as AnyError};
ghost use Rattle.cl_prep.specs.Expands.{Expands, IsRefused, start_state, token_limit};
ghost use Rattle.cl_prep.specs.Progress.{Finishes, IsTokens, IsFault, IsRefusedOrMemory};
ghost use Rattle.cl_prep.specs.ScopeViews.{scope_of};

use crate::directive::{begins_directive, line_length};
use crate::prep::{Defines, PrepError};
use crate::replace::{Stop, read};
use crate::scope::Scope;
use crate::start::{add_defines, start_names};
use cl_token::Token;
use std::alloc::Global;

/// Reads all tokens, from the first one on.
fn run(alloc: Global, mut scope: Scope, tokens: &[Token]) -> Result<Vec<Token>, PrepError>
    requires few { length tokens.now + 1 < 2 ^ 32 }
    requires closed { (scope_of scope).conditionals ≡ [] }
    ensures { Finishes (start_state tokens.now (scope_of scope).names) result }
{
    let mut marks = Vec::new(alloc);
    let mut out = Vec::new(alloc);
    let mut replaced = 0usize;
    let mut at = 0usize;
    while at < tokens.len() {
        let token = &tokens[at];
        if begins_directive(token) {
            let behind = &tokens[at + 1..];
            let length = line_length(behind);
            if let Err(error) = scope.obey(alloc, at as u32, &behind[..length]) {
                return Err(error);
            }
            at += 1 + length;
            continue;
        }
        if scope.is_active() {
            match read(alloc, &scope.names, &mut marks, token, &mut out, replaced) {
                Ok(count) => replaced = count,
                Err(Stop::TooMany) => return Err(PrepError::TooMany { token: at as u32 }),
                Err(Stop::Memory) => return Err(PrepError::Memory),
            }
        }
        at += 1;
    }
    match scope.innermost() {
        Some(token) => Err(PrepError::NotClosed { token }),
        None => Ok(out),
    }
}

/// The tokens after directives, conditionals and the replacement of names (C99, section 6.10), with
/// these given names.
///
/// A given name that is defined twice comes before any other error. Of the others, the first token at
/// which a rule fails decides, and a conditional that is not closed is found last.
pub fn expand(alloc: Global, tokens: &[Token], defines: &Defines) -> Result<Vec<Token>, PrepError>
    requires { length tokens.now + 1 < 2 ^ 32 }
    ensures expands { IfOk result (λ ts. Expands tokens.now defines.now.list.items ts.items) }
    ensures few { IfOk result (λ ts. length ts.items ≤ token_limit) }
    ensures inside { (n : ℕ) → All (λ t. t.start ≤ n) tokens.now →
        IfOk result (λ ts. All (λ t. t.start ≤ n) ts.items) }
    ensures all { (out : List AnyToken) → Expands tokens.now defines.now.list.items out → IsTokens result out }
    ensures refused { IfErr result (λ e. IsRefusedOrMemory tokens.now defines.now.list.items e) }
    ensures fault { (e : AnyError) → IsRefused tokens.now defines.now.list.items e → IsFault result e }
{
    let mut names = start_names(alloc)?;
    if let Err(error) = add_defines(alloc, &mut names, defines.list.as_slice()) {
        return Err(error);
    }
    run(alloc, Scope::new(alloc, names), tokens)
}
