ghost use Rattle.std.specs.Prelude.{◌≡◌, ◌≤◌, [], ◌&&◌, not, length, Ok};
ghost use Rattle.xt_annotations.specs.Places.{breaks};
ghost use Rattle.idl_input.specs.Input as spec;
ghost use Rattle.idl_input.specs.Input.{Reads, Judges};
ghost use Rattle.idl_input.specs.Words.{keyword};

use crate::faults::IdlFault;
use crate::words::{Keyword, keyword_of};
use idl_tokens::{Token, TokenKind, is_seen, skip, unsigned_in};
use std::alloc::Global;
use std::marker::Model;
use xt_annotations::{Placed, RuleFault, Site, breaks, note_after};
use xt_lists::Row;

/// A cursor over the tokens of a text, with the next token at hand.
#[derive(Drop)]
pub struct Tokens<'a> {
    text: &'a [u8],
    /// The text from the next token on, and that token.
    ahead: &'a [u8],
    token: Token,
    size: u32,
}

impl<'a> Model for Tokens<'a> {
    ghost use Rattle.idl_input.specs.Input.{Input, input_code};

    ghost Value = { Input };

    ghost coded = { input_code };

    ghost use Rattle.idl_input.specs.Cursor.{input_of, IsReady};

    ghost view = { input_of };

    ghost invariant = { IsReady };
}

impl<'a> Tokens<'a> {
    /// A cursor at the beginning of a text.
    pub fn new(text: &'a [u8]) -> Tokens<'a>
        requires { length text.now ≤ 1048576 }
        ensures { result ≡ record { text = text.now; size = length text.now } }
    {
        let (ahead, token) = skip(text);
        Tokens {
            text,
            ahead,
            token,
            size: text.len() as u32,
        }
    }

    /// What the next token is.
    #[tactic(auto, unfolding(crate::specs::Input::kind))]
    pub fn kind(&self) -> TokenKind
        ensures { result ≡ spec.kind self.now }
    {
        self.token.kind
    }

    /// The octets of the next token.
    #[tactic(auto, unfolding(crate::specs::Input::spelling))]
    pub fn spelling(&self) -> &'a [u8]
        ensures { result.now ≡ spec.spelling self.now }
    {
        &self.ahead[..self.token.len]
    }

    /// How many octets there are from the next token on.
    #[tactic(auto, unfolding(crate::specs::Input::left))]
    pub fn left(&self) -> usize
        ensures value { result ≡ spec.left self.now }
        ensures small { result ≤ 1048576 }
    {
        self.ahead.len()
    }

    /// The place of the next token.
    #[tactic(auto, unfolding(crate::specs::Input::place))]
    pub fn place(&self) -> u32
        ensures { result ≡ spec.place self.now }
    {
        self.size - self.ahead.len() as u32
    }

    /// Takes the next token, whatever it is.
    #[tactic(auto, unfolding(crate::specs::Input::spelling, crate::specs::Input::next))]
    pub fn take(&mut self) -> &'a [u8]
        ensures text { result.now ≡ spec.spelling self.old }
        ensures next { self.new ≡ spec.next self.old }
    {
        let (spelling, text) = self.ahead.split_at(self.token.len);
        let (ahead, token) = skip(text);
        self.text = text;
        self.ahead = ahead;
        self.token = token;
        spelling
    }

    /// The fault of a token with which the text so far begins no reading.
    pub fn syntax(&self) -> IdlFault
        ensures { result ≡ IdlFault.Syntax (spec.place self.now) }
    {
        IdlFault::Syntax { at: self.place() }
    }

    /// Whether the next token is this word or mark.
    #[tactic(auto, unfolding(crate::specs::Input::sees, idl_tokens::specs::Tokens::sees))]
    pub fn sees(&self, spelling: &[u8]) -> bool
        ensures { result ≡ spec.sees spelling.now self.now }
    {
        is_seen(self.ahead, self.token, spelling)
    }

    /// Takes this word or mark, if it comes next.
    #[tactic(auto, unfolding(crate::specs::Input::after_if))]
    pub fn eat(&mut self, spelling: &[u8]) -> bool
        ensures found { result ≡ spec.sees spelling.now self.old }
        ensures after { self.new ≡ spec.after_if spelling.now self.old }
    {
        let found = self.sees(spelling);
        if found {
            self.take();
        }
        found
    }

    /// Takes this word or mark, or else refuses what comes next.
    #[tactic(auto, unfolding(crate::specs::Input::want))]
    pub fn want(&mut self, spelling: &[u8]) -> Result<(), IdlFault>
        ensures { Reads (λ x. x) (spec.want spelling.now self.old) result self.new }
    {
        if self.sees(spelling) {
            self.take();
            Ok(())
        } else {
            Err(self.syntax())
        }
    }

    /// Whether the next token is an identifier that is no keyword.
    #[tactic(auto, unfolding(crate::specs::Input::sees_name, crate::specs::Input::kind, crate::specs::Input::spelling))]
    pub fn sees_name(&self) -> bool
        ensures { result ≡ spec.sees_name self.now }
    {
        match self.token.kind {
            TokenKind::Word => keyword_of(self.spelling()).is_none(),
            _ => false,
        }
    }

    /// The keyword that the next token is.
    #[tactic(auto, unfolding(crate::specs::Input::keyword_at, crate::specs::Input::kind, crate::specs::Input::spelling))]
    pub fn keyword(&self) -> Option<Keyword>
        ensures { result ≡ spec.keyword_at self.now }
    {
        match self.token.kind {
            TokenKind::Word => keyword_of(self.spelling()),
            _ => None,
        }
    }

    /// Takes an identifier that is no keyword, or else refuses what comes next.
    #[tactic(auto, unfolding(crate::specs::Input::name))]
    pub fn name(&mut self) -> Result<&'a [u8], IdlFault>
        ensures { Reads (λ x. x.now) (spec.name self.old) result self.new }
    {
        if self.sees_name() {
            Ok(self.take())
        } else {
            Err(self.syntax())
        }
    }

    /// Whether the next token is a numeral.
    #[tactic(auto, unfolding(crate::specs::Input::sees_number, crate::specs::Input::kind))]
    pub fn sees_number(&self) -> bool
        ensures { result ≡ spec.sees_number self.now }
    {
        matches!(self.token.kind, TokenKind::Number)
    }

    /// Takes a bound or a dimension, 1 to 4,294,967,295, or else refuses what comes next.
    #[tactic(auto, unfolding(crate::specs::Input::bound))]
    pub fn bound(&mut self) -> Result<u32, IdlFault>
        ensures { Reads (λ x. x) (spec.bound self.old) result self.new }
    {
        if !self.sees_number() {
            return Err(self.syntax());
        }
        match unsigned_in(1, 4_294_967_295, self.spelling()) {
            Some(bound) => {
                self.take();
                Ok(bound as u32)
            }
            None => Err(self.syntax()),
        }
    }

    /// The annotation whose `@` comes next.
    #[tactic(auto, unfolding(crate::specs::Input::note, crate::specs::Input::next))]
    pub fn note(&mut self, alloc: Global) -> Result<Placed, IdlFault>
        ensures { Reads (λ x. x) (spec.note self.old) result self.new }
    {
        let at = self.place();
        self.take();
        match note_after(alloc, self.text) {
            Ok((note, text)) => {
                let (ahead, token) = skip(text);
                self.text = text;
                self.ahead = ahead;
                self.token = token;
                Ok(Placed { at, note })
            }
            Err(RuleFault::Rule(rule)) => Err(IdlFault::Annotation { at, rule }),
            Err(RuleFault::Memory) => Err(IdlFault::OutOfMemory),
        }
    }

    /// The annotations at a site, each judged where it stands.
    #[tactic(auto, using(crate::proofs::Loops::notes_go, crate::proofs::Loops::notes_end), unfolding(crate::specs::Input::notes_at))]
    pub fn notes_at(&mut self, alloc: Global, site: Site) -> Result<Row<Placed>, IdlFault>
        ensures { Reads (λ x. x) (spec.notes_at site self.old) result self.new }
    {
        let mut before = Row::new(alloc);
        for _turn in 0..self.left() {
            if !self.sees(b"@") {
                return Ok(before);
            }
            let placed = self.note(alloc)?;
            judge(site, before.as_slice(), &placed)?;
            before.push(placed)?;
        }
        Ok(before)
    }
}

fn judge(site: Site, before: &[Placed], placed: &Placed) -> Result<(), IdlFault>
    ensures { Judges (breaks site before.now placed.now.note) placed.now.at result }
{
    match breaks(site, before, &placed.note) {
        None => Ok(()),
        Some(rule) => Err(IdlFault::Annotation {
            at: placed.at,
            rule,
        }),
    }
}
