//! Tokens in memory of their own.
ghost use Rattle.std.specs.Prelude.{◌≡◌, IfOk};
ghost use Rattle.band_player.specs.Token.{ended};

use crate::token::Token;
use std::alloc::{AllocError, Global};
use std::marker::Model;
use std::mem;

/// A token in memory of its own, so that what the table keeps at a name is small.
pub(crate) struct BoxedToken {
    token: Box<Token>,
}

impl Model for BoxedToken {
    ghost use Rattle.band_player.specs.Token.{TokenState};

    ghost Value = { TokenState };

    ghost view = { λ b. b.token.value };
}

impl BoxedToken {
    /// Memory for a token, with a request that has ended in it.
    pub(crate) fn new(alloc: Global) -> Result<BoxedToken, AllocError>
        ensures { IfOk result (λ boxed. boxed ≡ ended) }
    {
        match Box::new(alloc, Token::ended()) {
            Ok(token) => Ok(BoxedToken { token }),
            Err(failed) => {
                failed.value.lose();
                Err(AllocError)
            }
        }
    }

    /// The token in it.
    pub(crate) fn get(&self) -> &Token
        ensures { result.now ≡ self.now }
    {
        &self.token
    }

    /// Takes the token. A request that has ended is in its place.
    pub(crate) fn take(&mut self) -> Token
        ensures token { result ≡ self.old }
        ensures left { self.new ≡ ended }
    {
        mem::replace(&mut *self.token, Token::ended())
    }

    /// Puts a token into the place of a request that has ended.
    pub(crate) fn fill(&mut self, token: Token)
        requires { self.old ≡ ended }
        ensures { self.new ≡ token }
    {
        mem::replace(&mut *self.token, token).lose();
    }

    /// The same memory, with a token in the place of a request that has ended.
    pub(crate) fn filled(mut self, token: Token) -> BoxedToken
        requires { self ≡ ended }
        ensures { result ≡ token }
    {
        self.fill(token);
        self
    }

    /// The token, out of it.
    pub(crate) fn into_token(self) -> Token
        ensures { result ≡ self }
    {
        let BoxedToken { token } = self;
        Box::into_inner(token)
    }

    /// Ends the token and leaves it counted, for a table that ends too.
    pub(crate) fn lose(self) {
        self.into_token().lose();
    }
}
