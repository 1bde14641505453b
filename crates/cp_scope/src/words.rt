// The words of the input language.
ghost use Rattle.std.specs.Prelude.{◌≡◌, ◌||◌};
ghost use Rattle.cp_model.specs.Same.{same_text};
ghost use Rattle.cp_language.specs.Words.{is_one_of, heads_out_of_profile, state_heads, other_operations, sort_word, term_head, event_head, item_head, top_head};

use cp_language::{EventHead, ItemHead, SortWord, TermHead, TopHead};
use cp_term::Sort;

/// Whether the texts are equal.
pub fn is_word(text: &[u8], word: &[u8]) -> bool
    ensures { result ≡ same_text text.now word.now }
{
    text == word
}

/// What a text is by a table of words: what its row says, or else the last row.
#[macro_export]
macro_rules! by_word {
    ($text:expr; $($($word:literal)|+ => $meaning:expr,)+ _ => $otherwise:expr) => {
        $(if $($crate::is_word($text, $word))||+ { $meaning } else)+ { $otherwise }
    };
}

/// Whether a list with this head is out of profile wherever it is judged by its head.
pub fn is_out_of_profile(head: &[u8]) -> bool
    ensures { result ≡ is_one_of head.now heads_out_of_profile }
{
    by_word!(head; b"defrule" | b"facts" | b"priority" | b"absent" | b"uniq-gen" | b"fn-of" | b"defgoal" | b"defmacro" => true, _ => false)
}

/// Whether an event or an item with this head is out of profile, as a state event or a channel event is.
fn is_item_out_of_profile(head: &[u8]) -> bool
    ensures { result ≡ (is_one_of head.now heads_out_of_profile || is_one_of head.now state_heads) }
{
    is_out_of_profile(head)
        || by_word!(head; b"load" | b"stor" | b"init" | b"tran" | b"obsv" => true, _ => false)
}

/// Whether an operation with this head is out of profile, as one of another algebra is.
fn is_operation_out_of_profile(head: &[u8]) -> bool
    ensures { result ≡ (is_one_of head.now heads_out_of_profile || is_one_of head.now other_operations) }
{
    is_out_of_profile(head)
        || by_word!(head; b"exp" | b"gen" | b"mul" | b"rec" | b"one" | b"bltk" | b"hash" => true, _ => false)
}

/// What a word names where a sort stands.
pub fn sort_word(word: &[u8]) -> SortWord
    ensures { result ≡ sort_word word.now }
{
    by_word!(word;
        b"text" => SortWord::Atoms(Sort::Text), b"data" => SortWord::Atoms(Sort::Datum), b"name" => SortWord::Atoms(Sort::Name),
        b"skey" => SortWord::Atoms(Sort::Skey), b"akey" => SortWord::Atoms(Sort::Akey), b"mesg" => SortWord::Messages,
        b"expt" | b"rndx" | b"base" | b"chan" | b"locn" | b"state" => SortWord::OutOfProfile,
        _ => SortWord::Unknown)
}

/// What the head of a list in a term names.
pub fn term_head(head: &[u8]) -> TermHead
    ensures { result ≡ term_head head.now }
{
    by_word!(head;
        b"cat" => TermHead::Cat, b"enc" => TermHead::Enc, b"ltk" => TermHead::Ltk,
        b"pubk" => TermHead::Pubk, b"privk" => TermHead::Privk, b"invk" => TermHead::Invk,
        _ => if is_operation_out_of_profile(head) { TermHead::OutOfProfile } else { TermHead::Unknown })
}

/// What the head of an event names.
pub fn event_head(head: &[u8]) -> EventHead
    ensures { result ≡ event_head head.now }
{
    by_word!(head;
        b"send" => EventHead::Send, b"recv" => EventHead::Recv,
        _ => if is_item_out_of_profile(head) { EventHead::OutOfProfile } else { EventHead::Unknown })
}

/// What the head of an item of a protocol, a role or a problem names.
pub fn item_head(head: &[u8]) -> ItemHead
    ensures { result ≡ item_head head.now }
{
    by_word!(head;
        b"defrole" => ItemHead::Role,
        b"non-orig" => ItemHead::Non, b"pen-non-orig" => ItemHead::PenetratorNon, b"uniq-orig" => ItemHead::Unique,
        b"defstrand" => ItemHead::Strand, b"deflistener" => ItemHead::Listener,
        b"precedes" => ItemHead::Precedes, b"comment" => ItemHead::Comment,
        _ => if is_item_out_of_profile(head) { ItemHead::OutOfProfile } else { ItemHead::Unknown })
}

/// What the head of a top form names.
pub fn top_head(head: &[u8]) -> TopHead
    ensures { result ≡ top_head head.now }
{
    by_word!(head;
        b"defprotocol" => TopHead::Protocol, b"defskeleton" => TopHead::Problem, b"herald" | b"comment" => TopHead::Free,
        _ => if is_out_of_profile(head) { TopHead::OutOfProfile } else { TopHead::Unknown })
}
