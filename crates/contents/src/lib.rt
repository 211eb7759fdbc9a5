// What the fields of a message hold: readers of lines and of whole contents, each of which says whether the grammar holds, and where the parts are.
#![tactic(auto)]

pub mod lines;
pub mod pieces;
pub mod tags;
pub mod whole;

// What a field holds: a reference (20); NONREF (21); CRED (23B); a purpose (26T); date, currency and amount (32A); the payer (50K); a bank by
// its BIC (52A, 56A, 57A) or by its name (56D, 57D); our account (53B); an account and a BIC (58A); a beneficiary that is a bank (58D) or none
// (59); details (70); OUR (71A); an RPP line, the rest of the details, or both (72 in 103); details, perhaps behind an RPP line (72 in 202);
// what the regulator asks for (77B).
#[derive(Clone, Copy)]
pub enum Content {
    Unknown,
    Reference,
    Related,
    Operation,
    Purpose,
    Payment,
    Payer,
    BankByBic,
    BankByName,
    OwnAccount,
    AccountAndBic,
    BeneficiaryBank,
    Beneficiary,
    Details,
    Charges,
    DocumentAndRest,
    DocumentAndDetails,
    Regulatory,
}
