ghost use Rattle.expr_parse.specs.Parses.{ParsedIsParser, ParsesAlone, ParsesWithoutMemory};

/// What a text is parsed as is what it comes to by the grammar.
pub fn parsed_is_parser()
    ensures { ParsedIsParser }
{}

/// A text comes to one query or refusal alone.
pub fn parses_alone()
    ensures { ParsesAlone }
{}

/// No text comes to want of memory.
pub fn parses_without_memory()
    ensures { ParsesWithoutMemory }
{}
