// No code: the laws that every request keeps the rules of 9, table by table (proofs/).
