ghost use Rattle.std.specs.Prelude.{◌≡◌};
ghost use Rattle.idl_input.specs.Words as spec;

use idl_tokens::beside;
use xt_shapes::Prim;

/// A keyword. `Outside` is one that isn't in the profile.
#[derive(Clone, Copy, Debug)]
pub enum Keyword {
    Simple(Prim),
    Long,
    Unsigned,
    Str,
    Sequence,
    Map,
    Module,
    Struct,
    Union,
    Enum,
    Bitmask,
    Typedef,
    Switch,
    Case,
    Default,
    True,
    False,
    Outside,
}

/// A keyword that begins a type that is no collection.
#[derive(Clone, Copy, Debug)]
pub enum PlainWord {
    Simple(Prim),
    Long,
    Unsigned,
    Str,
}

#[derive(Clone, Copy, Debug)]
pub enum CollectionWord {
    Sequence,
    Map,
}

#[derive(Clone, Copy, Debug)]
pub enum DefinitionWord {
    Struct,
    Union,
    Enum,
    Bitmask,
    Typedef,
}

/// What a token begins where a definition or a type may stand, as far as its keyword tells. `Outside` is what isn't in the profile.
#[derive(Clone, Copy, Debug)]
pub enum Begins {
    Module,
    Definition(DefinitionWord),
    Plain(PlainWord),
    Collection(CollectionWord),
    Outside,
    Nothing,
    NoKeyword,
}

impl Begins {
    /// What a token begins, by the keyword that it is.
    #[tactic(auto, unfolding(crate::specs::Words::begins))]
    pub fn of(keyword: Option<Keyword>) -> Begins
        ensures { result ≡ spec.begins keyword }
    {
        let Some(word) = keyword else {
            return Begins::NoKeyword;
        };
        match word {
            Keyword::Simple(kind) => Begins::Plain(PlainWord::Simple(kind)),
            Keyword::Long => Begins::Plain(PlainWord::Long),
            Keyword::Unsigned => Begins::Plain(PlainWord::Unsigned),
            Keyword::Str => Begins::Plain(PlainWord::Str),
            Keyword::Sequence => Begins::Collection(CollectionWord::Sequence),
            Keyword::Map => Begins::Collection(CollectionWord::Map),
            Keyword::Module => Begins::Module,
            Keyword::Struct => Begins::Definition(DefinitionWord::Struct),
            Keyword::Union => Begins::Definition(DefinitionWord::Union),
            Keyword::Enum => Begins::Definition(DefinitionWord::Enum),
            Keyword::Bitmask => Begins::Definition(DefinitionWord::Bitmask),
            Keyword::Typedef => Begins::Definition(DefinitionWord::Typedef),
            Keyword::Switch | Keyword::Case | Keyword::Default | Keyword::True | Keyword::False =>
                Begins::Nothing,
            Keyword::Outside => Begins::Outside,
        }
    }
}

const KEYWORDS: [(&'static [u8], Keyword); 38] = [
    (b"module", Keyword::Module),
    (b"struct", Keyword::Struct),
    (b"union", Keyword::Union),
    (b"switch", Keyword::Switch),
    (b"case", Keyword::Case),
    (b"default", Keyword::Default),
    (b"TRUE", Keyword::True),
    (b"FALSE", Keyword::False),
    (b"enum", Keyword::Enum),
    (b"bitmask", Keyword::Bitmask),
    (b"typedef", Keyword::Typedef),
    (b"string", Keyword::Str),
    (b"sequence", Keyword::Sequence),
    (b"map", Keyword::Map),
    (b"boolean", Keyword::Simple(Prim::Boolean)),
    (b"octet", Keyword::Simple(Prim::Byte)),
    (b"char", Keyword::Simple(Prim::Char8)),
    (b"int8", Keyword::Simple(Prim::Int8)),
    (b"uint8", Keyword::Simple(Prim::Uint8)),
    (b"short", Keyword::Simple(Prim::Int16)),
    (b"int16", Keyword::Simple(Prim::Int16)),
    (b"unsigned", Keyword::Unsigned),
    (b"uint16", Keyword::Simple(Prim::Uint16)),
    (b"long", Keyword::Long),
    (b"int32", Keyword::Simple(Prim::Int32)),
    (b"uint32", Keyword::Simple(Prim::Uint32)),
    (b"int64", Keyword::Simple(Prim::Int64)),
    (b"uint64", Keyword::Simple(Prim::Uint64)),
    (b"float", Keyword::Simple(Prim::Float32)),
    (b"double", Keyword::Simple(Prim::Float64)),
    (b"wchar", Keyword::Outside),
    (b"wstring", Keyword::Outside),
    (b"const", Keyword::Outside),
    (b"interface", Keyword::Outside),
    (b"valuetype", Keyword::Outside),
    (b"bitset", Keyword::Outside),
    (b"fixed", Keyword::Outside),
    (b"any", Keyword::Outside),
];

/// The keyword that a word is.
#[tactic(auto, unfolding(crate::specs::Words::keyword))]
pub fn keyword_of(word: &[u8]) -> Option<Keyword>
    ensures { result ≡ spec.keyword word.now }
{
    beside(&KEYWORDS, word)
}
