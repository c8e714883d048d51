// What is proved of the compile call's definition (`definition`). There is no code here: `building` to `book_compiler` cite it.
#![tactic(auto)]
