//! The table of the rules: their tags, the texts of their diagnostics and their words in the help.
ghost use Rattle.std.specs.Prelude.{◌≡◌, bytes_eq};
ghost use Rattle.cc_base.specs.Rules.{words_view, words_of, tag_of, text_of, help_of, is_on_text, rule_tagged};

use crate::diagnostics::Rule;

/// The rules, in the order of their tags.
pub const RULES: [Rule; 18] = [
    Rule::Accfree,
    Rule::Boolasgn,
    Rule::Chrsgnext,
    Rule::Dblfree,
    Rule::Diverr,
    Rule::Insufmem,
    Rule::Intoflow,
    Rule::Invptr,
    Rule::Libptr,
    Rule::Nonnullcs,
    Rule::Nullref,
    Rule::Ptrobj,
    Rule::Sizeofptr,
    Rule::Strmod,
    Rule::Swtchdflt,
    Rule::Taintsink,
    Rule::Uninitref,
    Rule::Xfree,
];

/// What is printed of a rule.
#[derive(Clone, Copy)]
struct RuleWords {
    tag: &'static str,
    text: &'static str,
    help: &'static str,
    /// Whether the rule is on the text alone, not on runs.
    on_text: bool,
}

impl Rule {
    fn words(self) -> RuleWords
        ensures { words_view result ≡ words_of self }
    {
        match self {
            Rule::Accfree => RuleWords {
                tag: "accfree",
                text: "freed memory is used",
                help: "freed memory is used",
                on_text: false,
            },
            Rule::Boolasgn => RuleWords {
                tag: "boolasgn",
                text: "assignment stands as a condition",
                help: "an assignment is used as a condition",
                on_text: true,
            },
            Rule::Chrsgnext => RuleWords {
                tag: "chrsgnext",
                text: "character argument is out of range",
                help: "a character function gets an argument outside its range",
                on_text: false,
            },
            Rule::Dblfree => RuleWords {
                tag: "dblfree",
                text: "memory is freed twice",
                help: "memory is freed twice",
                on_text: false,
            },
            Rule::Diverr => RuleWords {
                tag: "diverr",
                text: "division is undefined",
                help: "a division is undefined",
                on_text: false,
            },
            Rule::Insufmem => RuleWords {
                tag: "insufmem",
                text: "allocation is too small for its type",
                help: "an allocation is too small for its type",
                on_text: false,
            },
            Rule::Intoflow => RuleWords {
                tag: "intoflow",
                text: "signed result is out of range",
                help: "a signed result is out of range",
                on_text: false,
            },
            Rule::Invptr => RuleWords {
                tag: "invptr",
                text: "pointer is out of bounds",
                help: "a pointer is out of bounds",
                on_text: false,
            },
            Rule::Libptr => RuleWords {
                tag: "libptr",
                text: "library call passes the end of an object",
                help: "a library call passes the end of an object",
                on_text: false,
            },
            Rule::Nonnullcs => RuleWords {
                tag: "nonnullcs",
                text: "string has no terminating zero",
                help: "a string has no terminating zero",
                on_text: false,
            },
            Rule::Nullref => RuleWords {
                tag: "nullref",
                text: "null or ended pointer is dereferenced",
                help: "a null or dangling pointer is dereferenced",
                on_text: false,
            },
            Rule::Ptrobj => RuleWords {
                tag: "ptrobj",
                text: "pointers into different objects",
                help: "pointers into different objects are compared or subtracted",
                on_text: false,
            },
            Rule::Sizeofptr => RuleWords {
                tag: "sizeofptr",
                text: "sizeof is taken of a pointer",
                help: "sizeof is applied to a pointer",
                on_text: true,
            },
            Rule::Strmod => RuleWords {
                tag: "strmod",
                text: "string literal is modified",
                help: "a string literal is modified",
                on_text: false,
            },
            Rule::Swtchdflt => RuleWords {
                tag: "swtchdflt",
                text: "switch has no default",
                help: "a switch has no default",
                on_text: true,
            },
            Rule::Taintsink => RuleWords {
                tag: "taintsink",
                text: "tainted value reaches a sink",
                help: "a tainted value reaches a size or an index",
                on_text: false,
            },
            Rule::Uninitref => RuleWords {
                tag: "uninitref",
                text: "uninitialized memory is read",
                help: "uninitialized memory is read",
                on_text: false,
            },
            Rule::Xfree => RuleWords {
                tag: "xfree",
                text: "memory was not allocated",
                help: "memory that was not allocated is freed",
                on_text: false,
            },
        }
    }

    /// The tag of the rule, as it is printed.
    pub fn tag(self) -> &'static str
        ensures { result.now ≡ tag_of self }
    {
        self.words().tag
    }

    /// The text of each diagnostic of the rule.
    pub fn text(self) -> &'static str
        ensures { result.now ≡ text_of self }
    {
        self.words().text
    }

    /// What the help says of the rule.
    pub fn help(self) -> &'static str
        ensures { result.now ≡ help_of self }
    {
        self.words().help
    }

    /// Whether the rule is on the text alone, not on runs.
    pub fn is_on_text(self) -> bool
        ensures { result ≡ is_on_text self }
    {
        self.words().on_text
    }

    fn has_tag(self, tag: &str) -> bool
        ensures { result ≡ bytes_eq tag.now (tag_of self) }
    {
        tag == self.tag()
    }

    /// The rule that has a tag, if there is one.
    pub fn tagged(tag: &str) -> Option<Rule>
        ensures { result ≡ rule_tagged tag.now }
    {
        RULES.iter().copied().find(|rule| rule.has_tag(tag))
    }
}
