//! That a statement of a script ends in its `;`, so that none begins right after END, and what the
//! tokens tell of constructs where statements begin. Each function does nothing; its contract is
//! the law.
#![tactic(auto)]

ghost use Rattle.std.specs.Prelude.{◌≡◌, ◌-◌, ◌<◌, false, List, ℕ, Result};
ghost use Rattle.sql_lex.specs.declared.sign.Sign.TheVariants.{Semicolon};
ghost use Rattle.sql_lex.specs.declared.token.Token.{Token};
ghost use Rattle.sql_lex.specs.declared.token.TokenKind.TheVariants.{Sign};
ghost use Rattle.sql_lex.specs.Openings.{kind_at, follows_end};
ghost use Rattle.grammar_algebra.specs.declared.fault.ParseFault.{ParseFault};
ghost use Rattle.grammar_algebra.specs.Statement.{SpellsWithin, Answers};
ghost use Rattle.statement_trees.specs.declared.statement.Stmt.{Stmt};
ghost use Rattle.grammar_sql.specs.Constructs.{TellOpenFrom, GoByStepsFrom, CountOpenFrom};
ghost use Rattle.grammar_sql.specs.Constructs.{DeepExactly};
ghost use Rattle.grammar_sql.specs.Sql.{rules, statement};
ghost use Rattle.grammar_ends.specs.Begins.{Begins};

/// A statement that is spelled, with however many constructs open, takes a token at least, and its
/// last one is its `;`: what begins after it does not stand right after END.
pub fn statements_end()
    ensures longer { (n : ℕ) (tokens : List Token) (at : ℕ) (tree : Stmt) (to : ℕ) →
        SpellsWithin rules n statement tokens at tree to → at < to }
    ensures last { (n : ℕ) (tokens : List Token) (at : ℕ) (tree : Stmt) (to : ℕ) →
        SpellsWithin rules n statement tokens at tree to →
        kind_at tokens (to - 1) ≡ Sign Semicolon }
    ensures after { (n : ℕ) (tokens : List Token) (at : ℕ) (tree : Stmt) (to : ℕ) →
        SpellsWithin rules n statement tokens at tree to → follows_end tokens to ≡ false }
{}

/// Where a statement of a script begins, END does not stand right before it.
pub fn statements_begin()
    ensures { (tokens : List Token) (at : ℕ) → Begins tokens at →
        follows_end tokens at ≡ false }
{}

/// The laws on constructs at each place where a statement of a script begins: the tokens tell which
/// constructs are open, how they change from token to token, and how many are open at once; and
/// reading stops for want of constructs just where the token there opens one too many.
pub fn constructs_of_scripts()
    ensures open { (tokens : List Token) (at : ℕ) → Begins tokens at →
        TellOpenFrom rules statement tokens at }
    ensures steps { (tokens : List Token) (at : ℕ) → Begins tokens at →
        GoByStepsFrom rules statement tokens at }
    ensures counted { (tokens : List Token) (at : ℕ) → Begins tokens at →
        CountOpenFrom rules statement tokens at }
    ensures deep { (tokens : List Token) (at : ℕ) → Begins tokens at →
        (n : ℕ) (answer : Result (Stmt × ℕ) ParseFault) →
        Answers rules n statement tokens at answer →
        DeepExactly rules n statement tokens at answer }
{}
