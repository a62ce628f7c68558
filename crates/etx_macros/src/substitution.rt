// The body of a macro with its arguments.
ghost use Rattle.std.specs.Prelude.{◌≡◌, IfOk, OnOk, ◌++◌};
ghost use Rattle.etx_macros.specs.Substituting.{replaced, substituted};

use etx_matter::{Token, Tokens};
use std::alloc::{AllocError, Global};

/// Adds what stands for a token of the body.
fn push_replaced(out: &mut Tokens, token: Token, args: &[Tokens]) -> Result<(), AllocError>
    ensures { OnOk result (out.new ≡ out.old ++ replaced args.now token) }
{
    match token {
        Token::Char { .. } | Token::Name(_) => out.push(token),
        Token::Param(0) => Ok(()),
        Token::Param(n) => match args.get(n as usize - 1) {
            Some(arg) => out.extend_from_slice(arg.as_slice()),
            None => Ok(()),
        },
    }
}

/// The body, in which the n-th argument stands for each `Token::Param(n)`, from 1 on; nothing stands for a parameter that
/// has no argument ("TeX: The Program", section 390). It takes time for the tokens of the body and of what it gives.
#[tactic(auto, unfolding(crate::specs::Substituting::substituted))]
pub fn substitute(alloc: Global, body: &[Token], args: &[Tokens]) -> Result<Tokens, AllocError>
    ensures { IfOk result (λ text. text ≡ substituted body.now args.now) }
{
    let mut out = Tokens::new(alloc);
    for token in body {
        push_replaced(&mut out, *token, args)?;
    }
    Ok(out)
}
