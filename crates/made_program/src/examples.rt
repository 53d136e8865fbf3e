//! The texts of one relation and of two, as examples of what the definition says.
ghost use Rattle.std.specs.Prelude.{◌≡◌, codes, length};
ghost use Rattle.made_program.specs.Made.{made_text};

/// The made texts of one relation and of two.
pub fn made_texts()
    ensures one { made_text 1 ≡ codes "rel r1(HO);\npktIn(s, src->dst, i) {\n  r1.insert(src);\n}\n" }
    ensures two { made_text 2 ≡ codes "rel r1(HO);\nrel r2(HO);\nsafety s2: forall X:HO. r2(X) -> r1(X);\npktIn(s, src->dst, i) {\n  r1.insert(src);\n  r2.insert(src);\n}\n" }
    ensures length_of_one { length (made_text 1) ≡ 56 }
    ensures length_of_two { length (made_text 2) ≡ 126 }
    ensures length_of_sixty { length (made_text 60) ≡ 4440 }
{}
