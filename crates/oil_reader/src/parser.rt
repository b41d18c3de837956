//! OIL: grammar. Tokens to a tree.

ghost use Rattle.std.specs.Prelude.{◌≡◌, ◌<◌, ◌≤◌, List, ◌∷◌, [], Some, IfOk, IfErr, MatchOption, option_map, map, OnOk, length, IsTrue, ◌↔◌, refl};
ghost use Rattle.oil_reader.specs.declared.tokens.Sign.TheVariants.{Open, Close, Equals, Semicolon};
ghost use Rattle.oil_reader.specs.Tokens.{Name, Mark, Version, Lexeme, lexemes_of, lexeme_of};
ghost use Rattle.oil_reader.specs.Grammar as tree;
ghost use Rattle.oil_reader.specs.Grammar.{at, IsSetting, IsSub, IsBlock, IsAttribute, IsBody, IsObject, IsHeader, IsFile, AreEach, StartsWith, IsKind, value_word};
ghost use Rattle.oil_reader.specs.Machine.{Symbol, AnyName, AnyValue, Only, Subs, Rest, Attributes, Body, Objects, the_file, the_header, step, RefusesAll, Keyword, TheVersion, AnyKind};
ghost use Rattle.oil_reader.specs.Faults.{IsSyntaxAnswer};
ghost use Rattle.oil_reader.specs.Trees.{setting_of, value_of, block_of, attribute_of, attributes_of, object_of, file_of};

use crate::fault::OilFault;
use crate::ident::Ident;
use crate::syntax::{Attribute, Block, Kind, Object, Setting, SyntaxTree, Value};
use crate::tokens::{Placed, Sign, Token};
use std::alloc::Global;

/// The tokens that are still to be read.
#[derive(Drop)]
struct Parser<'t, 'a> {
    tokens: &'t [Placed<'a>],
    next: usize,
    /// How many bytes the text has.
    len: usize,
    ghost in_range: { next ≤ length tokens.now },
}

/// What stands in braces one after the other.
trait InBraces<'a>: Drop {
    ghost use Rattle.oil_reader.specs.Rest.{rest_of, ReadsNext};

    /// One of them without where it lies in memory.
    ghost Tree: { Type 0 };

    /// That of one.
    ghost tree: { Self → Tree };

    /// The tokens that spell one, before a rest.
    ghost Is: { Tree → List Lexeme → List Lexeme → Type 0 };

    /// What the grammar calls all of them up to and with the closing brace.
    ghost symbol: { Symbol };

    /// The next of them.
    fn next(parser: &mut Parser<'_, 'a>, alloc: Global) -> Result<Self, OilFault>
        requires { ¬ StartsWith Close (rest_of parser.now) }
        ensures { ReadsNext tree Is symbol parser.old parser.new result };

    ghost closes: { step symbol (Mark Close) ≡ Some [] };
}

impl<'a> InBraces<'a> for Setting<'a> {
    ghost Tree = { tree.Setting };

    ghost tree = { setting_of };

    ghost Is = { IsSub };

    ghost symbol = { Subs };

    fn next(parser: &mut Parser<'_, 'a>, _alloc: Global) -> Result<Setting<'a>, OilFault> {
        parser.sub()
    }

    ghost closes = { refl };
}

impl<'a> InBraces<'a> for Attribute<'a> {
    ghost Tree = { tree.Attribute };

    ghost tree = { attribute_of };

    ghost Is = { IsAttribute };

    ghost symbol = { Attributes };

    fn next(parser: &mut Parser<'_, 'a>, alloc: Global) -> Result<Attribute<'a>, OilFault> {
        parser.attribute(alloc)
    }

    ghost closes = { refl };
}

impl<'a> InBraces<'a> for Object<'a> {
    ghost Tree = { tree.Object };

    ghost tree = { object_of };

    ghost Is = { IsObject };

    ghost symbol = { Objects };

    fn next(parser: &mut Parser<'_, 'a>, alloc: Global) -> Result<Object<'a>, OilFault> {
        parser.object(alloc)
    }

    ghost closes = { refl };
}

impl<'t, 'a> Parser<'t, 'a> {
    ghost use Rattle.oil_reader.specs.Rest.{rest_of, Reads};

    /// Whether the sign is the first token.
    fn starts_with(&self, sign: Sign) -> bool
        ensures { IsTrue result ↔ StartsWith sign (rest_of self.now) }
    {
        self.next < self.tokens.len() && self.tokens[self.next].token == Token::Sign(sign)
    }

    /// The next token, which is taken.
    fn token(&mut self) -> Option<Placed<'a>>
        ensures token { MatchOption result ((rest_of self.old ≡ []) × (rest_of self.new ≡ []))
            (λ t. rest_of self.old ≡ lexeme_of t ∷ rest_of self.new) }
        ensures len { self.new.len ≡ self.old.len }
    {
        if self.next >= self.tokens.len() {
            return None;
        }
        let token = self.tokens[self.next];
        self.next += 1;
        Some(token)
    }

    /// A sign, by its place.
    fn sign(&mut self, sign: Sign) -> Result<usize, OilFault>
        ensures { Reads (λ x ts rest. ts ≡ at x (Mark sign) ∷ rest) (Only sign ∷ []) self.old
            self.new result }
    {
        let Some(token) = self.token() else {
            return Err(OilFault::Syntax(self.len));
        };
        match token.token {
            Token::Sign(found) if found == sign => Ok(token.place),
            _ => Err(OilFault::Syntax(token.place)),
        }
    }

    /// A NAME and its place.
    fn name(&mut self) -> Result<(Ident<'a>, usize), OilFault>
        ensures { Reads (λ x ts rest. ts ≡ at x.1 (Name x.0.text.now) ∷ rest) (AnyName ∷ [])
            self.old self.new result }
    {
        let Some(token) = self.token() else {
            return Err(OilFault::Syntax(self.len));
        };
        match token.token {
            Token::Name(name) => Ok((name, token.place)),
            _ => Err(OilFault::Syntax(token.place)),
        }
    }

    /// A value and its place.
    fn value(&mut self) -> Result<(Value<'a>, usize), OilFault>
        ensures { Reads (λ x ts rest. ts ≡ at x.1 (value_word (value_of x.0)) ∷ rest)
            (AnyValue ∷ []) self.old self.new result }
    {
        let Some(token) = self.token() else {
            return Err(OilFault::Syntax(self.len));
        };
        match token.token {
            Token::Name(name) => Ok((Value::Name(name), token.place)),
            Token::Number(number) => Ok((Value::Number(number), token.place)),
            _ => Err(OilFault::Syntax(token.place)),
        }
    }

    /// `NAME = value`.
    fn setting(&mut self) -> Result<Setting<'a>, OilFault>
        ensures { Reads (λ x. IsSetting (setting_of x)) (AnyName ∷ Only Equals ∷ AnyValue ∷ [])
            self.old self.new result }
    {
        let (name, name_place) = self.name()?;
        self.sign(Sign::Equals)?;
        let (value, value_place) = self.value()?;
        Ok(Setting {
            name,
            name_place,
            value,
            value_place,
        })
    }

    /// `NAME = value ;`.
    fn sub(&mut self) -> Result<Setting<'a>, OilFault>
        ensures { Reads (λ x. IsSub (setting_of x))
            (AnyName ∷ Only Equals ∷ AnyValue ∷ Only Semicolon ∷ []) self.old self.new result }
    {
        let setting = self.setting()?;
        self.sign(Sign::Semicolon)?;
        Ok(setting)
    }

    /// What stands in braces, up to and with the closing one, and that one's place.
    fn in_braces<X: InBraces<'a>>(&mut self, alloc: Global) -> Result<(Vec<X>, usize), OilFault>
        ensures { Reads
            (λ x ts rest. AreEach X.Is (map X.tree x.0.items) ts (at x.1 (Mark Close) ∷ rest))
            (X.symbol ∷ []) self.old self.new result }
    {
        let mut things = Vec::new(alloc);
        'each: while !self.starts_with(Sign::Close) {
            let thing = X::next(self, alloc)?;
            things.push(thing)?;
        }
        let close = self.sign(Sign::Close)?;
        Ok((things, close))
    }

    /// What follows a value, up to the semicolon.
    fn rest(&mut self, alloc: Global) -> Result<(Option<Block<'a>>, usize), OilFault>
        ensures { Reads
            (λ x ts rest. IsBlock (option_map block_of x.0) ts (at x.1 (Mark Semicolon) ∷ rest))
            (Rest ∷ []) self.old self.new result }
    {
        if self.starts_with(Sign::Semicolon) {
            let end = self.sign(Sign::Semicolon)?;
            return Ok((None, end));
        }
        self.sign(Sign::Open)?;
        let (settings, close) = self.in_braces(alloc)?;
        let end = self.sign(Sign::Semicolon)?;
        Ok((Some(Block { settings, close }), end))
    }

    /// An attribute.
    fn attribute(&mut self, alloc: Global) -> Result<Attribute<'a>, OilFault>
        ensures { Reads (λ x. IsAttribute (attribute_of x))
            (AnyName ∷ Only Equals ∷ AnyValue ∷ Rest ∷ []) self.old self.new result }
    {
        let setting = self.setting()?;
        let (block, end) = self.rest(alloc)?;
        Ok(Attribute {
            setting,
            block,
            end,
        })
    }

    /// What follows an object's name.
    fn body(&mut self, alloc: Global) -> Result<(Vec<Attribute<'a>>, usize), OilFault>
        ensures { Reads (λ x. IsBody (attributes_of x.0.items) x.1) (Body ∷ []) self.old self.new
            result }
    {
        if self.starts_with(Sign::Semicolon) {
            let end = self.sign(Sign::Semicolon)?;
            return Ok((Vec::new(alloc), end));
        }
        self.sign(Sign::Open)?;
        let (attributes, close) = self.in_braces(alloc)?;
        self.sign(Sign::Semicolon)?;
        Ok((attributes, close))
    }

    /// The word of a kind.
    fn kind(&mut self) -> Result<Kind, OilFault>
        ensures { Reads IsKind (AnyKind ∷ []) self.old self.new result }
    {
        let Some(token) = self.token() else {
            return Err(OilFault::Syntax(self.len));
        };
        if let Token::Name(word) = token.token {
            if let Some(kind) = Kind::of_word(word.text) {
                return Ok(kind);
            }
        }
        Err(OilFault::Syntax(token.place))
    }

    /// An object.
    fn object(&mut self, alloc: Global) -> Result<Object<'a>, OilFault>
        ensures { Reads (λ x. IsObject (object_of x)) (AnyKind ∷ AnyName ∷ Body ∷ []) self.old
            self.new result }
    {
        let kind = self.kind()?;
        let (name, place) = self.name()?;
        let (attributes, end) = self.body(alloc)?;
        Ok(Object {
            kind,
            name,
            place,
            attributes,
            end,
        })
    }

    /// A word that the grammar names.
    fn keyword(&mut self, word: &str) -> Result<usize, OilFault>
        ensures { Reads (λ x ts rest. ts ≡ at x (Name word.now) ∷ rest) (Keyword word.now ∷ [])
            self.old self.new result }
    {
        let Some(token) = self.token() else {
            return Err(OilFault::Syntax(self.len));
        };
        if let Token::Name(name) = token.token {
            if name.text == word {
                return Ok(token.place);
            }
        }
        Err(OilFault::Syntax(token.place))
    }

    /// The string `"2.5"`.
    fn version(&mut self) -> Result<usize, OilFault>
        ensures { Reads (λ x ts rest. ts ≡ at x Version ∷ rest) (TheVersion ∷ []) self.old
            self.new result }
    {
        let Some(token) = self.token() else {
            return Err(OilFault::Syntax(self.len));
        };
        match token.token {
            Token::Version => Ok(token.place),
            _ => Err(OilFault::Syntax(token.place)),
        }
    }

    /// What stands before the objects, which names the CPU.
    fn header(&mut self) -> Result<Ident<'a>, OilFault>
        ensures { Reads (λ x. IsHeader x.text.now) the_header self.old self.new result }
    {
        self.keyword("OIL_VERSION")?;
        self.sign(Sign::Equals)?;
        self.version()?;
        self.sign(Sign::Semicolon)?;
        self.keyword("CPU")?;
        let (cpu, _) = self.name()?;
        self.sign(Sign::Open)?;
        Ok(cpu)
    }

    /// The end of the tokens.
    fn end(&mut self) -> Result<(), OilFault>
        ensures ok { OnOk result (rest_of self.old ≡ []) }
        ensures err { IfErr result (λ e. RefusesAll [] self.old.len (rest_of self.old) e) }
    {
        match self.token() {
            Some(token) => Err(OilFault::Syntax(token.place)),
            None => Ok(()),
        }
    }

    /// A file.
    fn file(&mut self, alloc: Global) -> Result<SyntaxTree<'a>, OilFault>
        ensures ok { IfOk result (λ x. IsFile (file_of x) (rest_of self.old)) }
        ensures err { IfErr result (λ e. RefusesAll the_file self.old.len (rest_of self.old) e) }
    {
        let cpu = self.header()?;
        let (objects, close) = self.in_braces(alloc)?;
        self.sign(Sign::Semicolon)?;
        self.end()?;
        Ok(SyntaxTree {
            cpu,
            objects,
            close,
        })
    }
}

/// The tree of a text's tokens.
pub fn parse<'a>(
    alloc: Global,
    len: usize,
    tokens: &[Placed<'a>],
) -> Result<SyntaxTree<'a>, OilFault>
    ensures ok { IfOk result (λ tree. IsFile (file_of tree) (lexemes_of tokens.now)) }
    ensures err { IfErr result (λ e. IsSyntaxAnswer len (lexemes_of tokens.now) e) }
{
    let mut parser = Parser {
        tokens,
        next: 0,
        len,
    };
    parser.file(alloc)
}
