// The compile call as a definition, and what is proved of it. There is no code here: `building` and `book_compiler` are proved equal to it.
#![tactic(auto)]
