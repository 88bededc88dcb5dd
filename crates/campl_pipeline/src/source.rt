//! A text with a number in it.
ghost use Rattle.std.specs.Prelude.{◌≡◌, IfOk};
ghost use Rattle.campl_pipeline.specs.Source.{generated_source};

use campl_text::Text;
use std::alloc::{AllocError, Global};

/// What stands before the number of stages.
const BEFORE: &str = "\
protocol Stream => S where
    Item :: Put(Int | S) => S
    Done :: TopBot => S
fun show :: Int -> [Char] where
    n -> case n < 10 of
        True -> [char(48 + n)]
        False -> show(n div 10) ++ [char(48 + n mod 10)]
proc feed :: Int | => Stream where
    n | => o -> case n == 0 of
        True -> do
            hput Done on o
            halt o
        False -> do
            hput Item on o
            put n on o
            feed(n - 1 | => o)
proc step :: | Stream => Stream where
    | i => o -> hcase i of
        Item -> do
            get k on i
            hput Item on o
            put k + 1 on o
            step( | i => o)
        Done -> do
            close i
            hput Done on o
            halt o
proc chain :: Int | Stream => Stream where
    n | i => o -> case n == 0 of
        True -> i |=| o
        False -> plug m :: Stream of
            i => m -> step( | i => m)
            m => o -> chain(n - 1 | m => o)
proc sum :: Int | Stream, Console => where
    t | i, k => -> hcase i of
        Item -> do
            get v on i
            sum(t + v | i, k => )
        Done -> do
            close i
            hput ConsolePut on k
            put \"sum \" ++ show(t) on k
            hput ConsoleClose on k
            halt k
proc run :: | Console => where
    | console => -> plug a :: Stream, b :: Stream of
        => a -> feed(10 | => a)
        a => b -> chain(";

/// What stands behind it.
const BEHIND: &str = " | a => b)
        b, console => -> sum(0 | b, console => )
";

/// The source with so many stages. An error means that memory is out.
#[tactic(auto, using(crate::proofs::Parts::in_parts, crate::proofs::Parts::few))]
pub fn generated_source(alloc: Global, stages: u32) -> Result<Text, AllocError>
    ensures { IfOk result (λ text. text ≡ generated_source stages) }
{
    let source = format!(in alloc; "{BEFORE}{stages}{BEHIND}")?;
    Text::of(alloc, source.as_str())
}
