//! Laws of products and of the transform. The functions do nothing; each one's contract is a law.

ghost use Rattle.dc_transform_rules.specs.Laws.{ProductIsSum, NothingComesRound, ProductsMultiply};
ghost use Rattle.dc_transform_rules.specs.Laws.{BackwardUndoes, TransformsMultiply, DividedOnce};
ghost use Rattle.dc_transform_rules.specs.Laws.{ColumnsGoForward, ColumnsGoBackward, ColumnsOfRows, ColumnsScaled, SizeOfRows};

/// The coefficients of a product of polynomials as plain sums.
pub fn product_is_sum()
    ensures all { ProductIsSum }
    ensures carried { NothingComesRound }
{}

/// The transform of a product is the product of the transforms, place by place.
pub fn transform_of_product()
    ensures { ProductsMultiply }
{}

/// The way back undoes the transform, up to the number of rows as a factor.
pub fn way_back()
    ensures undone { BackwardUndoes }
    ensures multiplied { TransformsMultiply }
    ensures divided { DividedOnce }
{}

/// Polynomials that stand side by side are transformed one by one.
pub fn columns()
    ensures forward { ColumnsGoForward }
    ensures backward { ColumnsGoBackward }
    ensures rows { ColumnsOfRows }
    ensures scaled { ColumnsScaled }
    ensures size { SizeOfRows }
{}
