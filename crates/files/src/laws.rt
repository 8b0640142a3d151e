//! What is true of every file and every sheet. The functions do nothing when run; the contract of each is a law.

ghost use Rattle.std.specs.Prelude.{◌≡◌, ◌+◌, ◌*◌, ℕ, List, filter, length};
ghost use Rattle.std.specs.Str.{bytes_eq};
ghost use Rattle.ledger.specs.Good.{Good};
ghost use Rattle.ledger.specs.Ledger.{Ledger};
ghost use Rattle.files.specs.Bounds.{SayBounds, bounds_header};
ghost use Rattle.files.specs.Deliveries.{SayDeliveries, delivery_header};
ghost use Rattle.files.specs.Files.{SaysOneThing};
ghost use Rattle.files.specs.Orders.{SayOrders, order_header};
ghost use Rattle.files.specs.Sheets.{IsArticleSheet, IsBranchSheet};

/// An order file says at most one list of requests, or has at most one first record at fault, and never both.
pub fn an_order_file_says_one_thing()
    ensures { SaysOneThing order_header SayOrders }
{}

/// A delivery file says at most one list of requests, or has at most one first record at fault, and never both.
pub fn a_delivery_file_says_one_thing()
    ensures { SaysOneThing delivery_header SayDeliveries }
{}

/// A file of bounds says at most one list of requests, or has at most one first record at fault, and never both.
pub fn a_bounds_file_says_one_thing()
    ensures { SaysOneThing bounds_header SayBounds }
{}

/// A good ledger has exactly one sheet for each branch and for each article.
pub fn exactly_one_sheet()
    ensures branch { (A : Ledger) (branch : List ℕ) → Good A → (text : List ℕ) × IsBranchSheet A branch text }
    ensures article { (A : Ledger) (article : List ℕ) → Good A → (text : List ℕ) × IsArticleSheet A article text }
    ensures one_of_branch { (A : Ledger) (branch one other : List ℕ) → IsBranchSheet A branch one
        → IsBranchSheet A branch other → one ≡ other }
    ensures one_of_article { (A : Ledger) (article one other : List ℕ) → IsArticleSheet A article one
        → IsArticleSheet A article other → one ≡ other }
{}

/// The numbers of a good ledger fit into their columns: a field's line has 72 bytes, and the last one 32.
pub fn sheets_keep_their_columns()
    ensures branch { (A : Ledger) (branch text : List ℕ) → Good A → IsBranchSheet A branch text
        → length text ≡ 72 * length (filter (λ f. bytes_eq f.name.branch branch) A.fields) + 32 }
    ensures article { (A : Ledger) (article text : List ℕ) → Good A → IsArticleSheet A article text
        → length text ≡ 72 * length (filter (λ f. bytes_eq f.name.article article) A.fields) + 32 }
{}
